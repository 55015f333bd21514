// The whole run on lent buffers: a read or some turns, then a write, until all is told. What is done between a read and a write is
// that of `search_machine`; `serve` and `step` alone read and write.
#![tactic(auto)]

ghost use Rattle.search_machine.specs.Standing.{Collects, Lent, Ready, Rests, Stepped, Turned, seen, written_out};

use search_machine::{Phase, Search, Stage};
use std::io::{Read, Write};
use streams::Streams;

// Makes a step and writes what is then pending, until all is told. Turns are a bound for the proof: nothing lasts so long.
// The parts are lent one by one: each function below uses some of them and lends others on, so a struct would be taken apart in each.
pub fn serve<I: Read, O: Write, E: Write>(
    standard: &mut Streams<I, O, E>,
    window: &mut [u8],
    table: &mut [u64],
    literal: &mut [u8],
    input: &mut [u8],
    out: &mut [u8],
)
    requires { Lent window.old table.old literal.old input.old out.old }
{
    let mut s = standing::start();
    for _ in 0..u64::MAX {
        let stepped = step(standard, s, window, table, literal, input, out);
        let length = stepped.pending.length;
        if !streams::write(&mut standard.output, &mut standard.errors, &out[..length]) {
            return;
        }
        s = standing::written(stepped);
        if s.phase == Phase::Over {
            return;
        }
    }
}

// Reads where a read is wanted; else makes turns.
fn step<I: Read, O: Write, E: Write>(
    standard: &mut Streams<I, O, E>,
    s: Search,
    window: &mut [u8],
    table: &mut [u64],
    literal: &mut [u8],
    input: &mut [u8],
    out: &mut [u8],
) -> Search
    requires { Rests s input.old × Lent window.old table.old literal.old input.old out.old }
    ensures rests { Rests (written_out result) input.new × Collects result out.new }
    ensures stepped { Stepped s.phase s window.old literal.old input.old result window.new literal.new input.new out.new }
{
    match s.phase {
        Phase::Going => go_on(s, window, table, literal, input, out),
        Phase::Wants => {
            let got = streams::read(&mut standard.input, &mut input[s.to..]);
            hearing::heard(&mut standard.errors, s, got, input, out)
        }
        Phase::Over => s,
    }
}

// Turns, until a read is wanted, the output is nearly full, or all is told; in the first two lines one turn.
fn go_on(
    s: Search,
    window: &mut [u8],
    table: &mut [u64],
    literal: &mut [u8],
    input: &mut [u8],
    out: &mut [u8],
) -> Search
    requires { Ready s window.old table.old literal.old input.old out.old }
    ensures { Turned (seen s window.old literal.old input.old) result window.new literal.new input.new out.new }
{
    match s.stage {
        Stage::First => heading::first(s, window, literal, input, out),
        Stage::Second => heading::second(s, window, literal, input, out),
        Stage::Text => turning::turns(s, window, table, literal, input, out),
    }
}
