// What a program over the driver does between a read and a write, as plain data. What it does is in specs/, as functions of
// lists, and with it what every such program is promised.
#![tactic(auto)]

use definition::End;

// What comes next where no line waits: go on, read more, tell a refusal, or tell the end record. A refusal is a number, since
// `feed` tells any that it is given.
#[derive(Clone, Copy)]
pub enum Next {
    Goes,
    Wants,
    Refuses(u64),
    Ends(End),
}

// A session, or what wraps one, once it was fed, and how many of the bytes at hand it took.
#[derive(Clone, Copy)]
pub struct Fed<S> {
    pub session: S,
    pub taken: usize,
    pub next: Next,
}
