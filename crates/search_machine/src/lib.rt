// How the program `search` stands between two turns, as plain data. What it does is in specs/, as a machine on lists, and with it
// what it is promised to print.
#![tactic(auto)]

use output::Pending;
use rare_bytes::Pair;
use searcher::Searcher;

// What is looked for at the front of what was read: the first line, the second, or the lines of the text. An enum and no function that
// is held: a search is plain data, of which `Turned` and `Served` speak.
#[derive(Clone, Copy)]
pub enum Stage {
    First,
    Second,
    Text,
}

// What comes next: a turn, a read, or nothing. An enum, as `Stage` is.
#[derive(Clone, Copy, PartialEq, Eq)]
pub enum Phase {
    Going,
    Wants,
    Over,
}

#[derive(Clone, Copy)]
pub struct Search {
    pub stage: Stage,
    pub phase: Phase,
    pub searcher: Searcher,
    // the literal's length in the room that is lent for it, since no memory is allocated, and which of its bytes are looked for first
    pub size: usize,
    pub pair: Pair,
    // what was read and not yet taken lies between these places of the input
    pub from: usize,
    pub to: usize,
    // what is to be written
    pub pending: Pending,
}

// How a line before the text stands that starts at the front of some bytes: no Option, since each case has an answer of its own.
#[derive(Clone, Copy)]
pub enum Seen {
    Whole(usize),
    Unfinished,
    TooLong,
}
