// Makes the calls that a script names and prints what each gives, for tests and for whoever wants to see what the driver
// does. Standard input has a command a line, each answered by a line; the commands are in command.rt. A line of another
// form is answered by `bad line` with its number, and ends the program.
//
// What a command gives is written before more input is waited for; a long script is read and answered in large pieces.
#![tactic(auto)]

mod command;

use output::Output;
use replay_input::Reading;
use replay_words::{Memory, PIECE, ROOM, TABLE};
use std::io::{Read, Write};
use streams::Streams;

// The longest line that can be a command: an offer or a poke of a whole piece, its words and two digits a byte.
const LONGEST: usize = 2 * PIECE + 18;

// The longest answer is that of `window`, its word and two digits for each byte of the room; a line that says `bad line`
// still fits behind it.
const LONGEST_ANSWER: usize = 2 * ROOM + 126;

pub fn play<I: Read, O: Write, E: Write>(standard: &mut Streams<I, O, E>) {
    let mut memory = Memory {
        room: [0u8; ROOM],
        table: [0u64; TABLE],
        bytes: [0u8; PIECE],
    };
    // filled where it lies: as a literal of nines it would be made beside the struct and copied, 31 KiB more of stack
    memory.table.fill(9);
    let mut input = [0u8; 65_536];
    let mut collected = [0u8; 262_144];
    let mut out = Output::new(&mut collected);
    run(standard, &mut memory, &mut input, &mut out);
    replay_says::flushed(standard, &mut out);
}

// Answers line after line until the script is over; what is collected then is yet to be written. Turns are a bound for the
// proof: nothing lasts so long.
fn run<I: Read, O: Write, E: Write>(
    standard: &mut Streams<I, O, E>,
    memory: &mut Memory,
    input: &mut [u8],
    out: &mut Output,
) {
    let mut script = replay_calls::start();
    let mut reading = Reading::new();
    for _ in 0..u64::MAX {
        let Some(line) = reading.next_line(standard, input, out, LONGEST_ANSWER, LONGEST) else {
            return;
        };
        if command::act(&mut script, line, memory, out).is_none() {
            replay_says::bad_line(out, reading.lines);
            return;
        }
    }
}
