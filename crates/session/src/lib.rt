// A session's state and what its calls hand back, as plain data. What the calls do is in specs/, as functions of these.
#![tactic(auto)]

use definition::Refusal;
use driver_core::Walk;

// How the input stands.
#[derive(Clone, Copy, PartialEq, Eq)]
pub enum Input {
    Open,
    Ended,
    // a Quit byte comes next after the bytes taken
    QuitFound,
}

// The places in a window, and how the input stands.
#[derive(Clone, Copy)]
pub struct Places {
    // the window's length; 0 in a closed session
    pub window: usize,
    // just after the last line with a row, or 0 where that is no longer held; the first byte not yet answered; the held
    // end
    pub floor: usize,
    pub next: usize,
    pub end: usize,
    pub input: Input,
    // the first replaced byte among those taken
    pub replaced: Option<u64>,
}

#[derive(Clone, Copy)]
pub struct Session {
    // knows no window
    pub walk: Walk,
    pub places: Places,
}

// A call that is not served: why, and what it hands back. `S` is a session, or what wraps one.
#[derive(Clone, Copy)]
pub struct Refused<S> {
    pub refusal: Refusal,
    pub next: S,
}

// An offer that is served.
#[derive(Clone, Copy)]
pub struct Offered<S> {
    // how many bytes of the piece were taken
    pub taken: usize,
    pub next: S,
}

// An answer that is served. Not one type with `Offered`: the name of the count says rows, and not bytes.
#[derive(Clone, Copy)]
pub struct Answered<S> {
    // how many rows were written
    pub rows: usize,
    pub next: S,
}
