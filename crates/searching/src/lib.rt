// The program `search`. Standard input has a line `before after invert pass limit`, a line with the literal, then the text.
// Rows are printed as they come, `kind number offset length` a line, then `end bytes lines matches cause`; in place of
// that, `refused` with the refusal's number, or `failed read`.
//
// Its buffers are here; what it does with them is in `serving`.
#![tactic(auto)]

use std::io::{Read, Write};
use streams::Streams;

// The rows of an answer: at most so many before, a break and a match.
const TABLE: usize = definition::ROW * (definition::MAX_CONTEXT + 2);

pub fn run<I: Read, O: Write, E: Write>(standard: &mut Streams<I, O, E>) {
    let mut window = [0u8; 4_096];
    let mut table = [0u64; TABLE];
    let mut literal = [0u8; heading::LONGEST];
    let mut input = [0u8; 65_536];
    // room for what one turn prints, several times
    let mut out = [0u8; 262_144];
    serving::serve(
        standard,
        &mut window,
        &mut table,
        &mut literal,
        &mut input,
        &mut out,
    );
}
