// The lines of `replay`'s standard input, one after another. What is collected is written before more input is waited for,
// and a long script is read in large pieces.
#![tactic(auto)]

ghost use Rattle.std.specs.Prelude.{◌≡◌, ◌≤◌, false, length};
ghost use Rattle.replay_input.specs.Input.{EndsBefore, EndsBehind, is_end};

use output::Output;
use std::io::{Read, Write};
use streams::{Failure, Streams};

// How far a lent input is gone through: what is not yet lies from `from` to `to`, and no further than the input goes.
#[derive(Clone, Copy)]
pub struct Reading {
    pub from: usize,
    pub to: usize,
    // how many lines were found
    pub lines: u64,
    // no more will come: a flag, since lines that came before may still be there
    pub ended: bool,
}

impl Reading {
    // Nothing is read yet.
    pub fn new() -> Reading
        ensures { result ≡ record { from = 0; to = 0; lines = 0; ended = false } }
    {
        Reading {
            from: 0,
            to: 0,
            lines: 0,
            ended: false,
        }
    }

    // The next line, behind which an answer of the most bytes has room; there is none where the script is over: by its end, a
    // line that is too long, or a failure. What is collected then is the caller's to write. Turns are a bound for the proof:
    // nothing lasts so long.
    pub fn next_line<'a, I: Read, O: Write, E: Write>(
        &mut self,
        standard: &mut Streams<I, O, E>,
        input: &'a mut [u8],
        out: &mut Output,
        most: usize,
        longest: usize,
    ) -> Option<&'a [u8]>
        ensures { out.new.room.ghost_name ≡ out.old.room.ghost_name }
    {
        if !replay_says::with_room(standard, out, most) {
            return None;
        }
        for _ in 0..u64::MAX {
            let to = self.to.min(input.len());
            let from = self.from.min(to);
            if let Some(end) = line_end(input, from, to) {
                self.from = end + 1;
                self.lines = replay_says::counted(self.lines);
                return Some(&input[from..end]);
            }
            self.fill(standard, input, out, longest)?;
        }
        None
    }

    // Writes what is collected, moves what is not yet gone through to the input's front and reads once behind it. A line is bad
    // before its end has come where it is longer than the longest. Where a signal came first, the next turn reads again.
    fn fill<I: Read, O: Write, E: Write>(
        &mut self,
        standard: &mut Streams<I, O, E>,
        input: &mut [u8],
        out: &mut Output,
        longest: usize,
    ) -> Option<()>
        ensures { out.new.room.ghost_name ≡ out.old.room.ghost_name }
    {
        let to = self.to.min(input.len());
        let from = self.from.min(to);
        let rest = to - from;
        if longest < rest {
            replay_says::bad_line(out, replay_says::counted(self.lines));
            return None;
        }
        if !replay_says::flushed(standard, out) || self.ended {
            return None;
        }
        line_buffer::roll(input, from, to);
        let moved = streams::read(&mut standard.input, &mut input[rest..]);
        if let Err(Failure::Errno(reason)) = moved {
            streams::tell_failed_read(&mut standard.errors, out, reason);
            return None;
        }
        self.from = 0;
        self.to = reached(moved, rest, input);
        self.ended = is_end(moved);
        Some(())
    }
}

// Where the first line of a part of the input ends.
#[tactic(auto, using(lines::proofs::Laws::found_at))]
fn line_end(input: &[u8], from: usize, to: usize) -> Option<usize>
    requires { (from ≤ to) × (to ≤ length input.now) }
    ensures before { EndsBefore result to }
    ensures behind { EndsBehind result from }
{
    Some(from + lines::find(&input[from..to], b'\n')?)
}

// Where the input ends after a read behind its first bytes. A last line needs no newline: it gets one.
fn reached(moved: Result<usize, Failure>, rest: usize, input: &mut [u8]) -> usize
    requires { rest ≤ length input.old }
    ensures { result ≤ length input.new }
{
    match moved {
        Ok(0) => ended_at(rest, input),
        Ok(n) => rest + n.min(input.len() - rest),
        Err(_) => rest,
    }
}

fn ended_at(rest: usize, input: &mut [u8]) -> usize
    requires { rest ≤ length input.old }
    ensures { result ≤ length input.new }
{
    if rest == 0 || rest == input.len() {
        return rest;
    }
    input[rest] = b'\n';
    rest + 1
}

// Only a read that gave nothing is at the end.
fn is_end(moved: Result<usize, Failure>) -> bool
    ensures { result ≡ is_end moved }
{
    matches!(moved, Ok(0))
}
