// The core that every way in shares, as the Rust's `Core`: a walk, how far a search has come through its lines, and one line
// answered from there, as plain data. It knows no window: bytes are lent, wherever they lie. What is done is in specs/, as
// functions of these; `agreeing`, `ahead`, `stepping`, `match_rows` and `giving` do it.
#![tactic(auto)]

use definition::{Fate, Going, Settings};

// How far a search has come through its lines.
#[derive(Clone, Copy)]
pub struct Walk {
    pub settings: Settings,
    // gone through
    pub bytes: u64,
    pub lines: u64,
    pub matches: u64,
    // lines of after-context still owed
    pub left: usize,
    // whether some row was given
    pub given: bool,
    pub going: Going,
}

// What the answer to a line gives: how many rows were written, and what became of the line.
#[derive(Clone, Copy)]
pub struct Given {
    pub rows: usize,
    pub fate: Fate,
}
