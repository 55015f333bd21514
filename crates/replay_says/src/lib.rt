// What `replay` says: texts and numbers are collected in an output, which is written before more input is waited for.
// It knows no searcher, so that a command takes and gives no more than what it says.
#![tactic(auto)]

ghost use Rattle.std.specs.Prelude.{◌≡◌, min, ◌+◌};
ghost use Rattle.output.specs.Output.{collected, decimal, none, over, seen};

use output::Output;
use std::io::Write;
use streams::Streams;

// Writes what is collected where an answer of the most bytes might have no room behind it; whether the script may go on.
pub fn with_room<I, O: Write, E: Write>(
    standard: &mut Streams<I, O, E>,
    out: &mut Output,
    most: usize,
) -> bool
    ensures same_reference { out.new.room.ghost_name ≡ out.old.room.ghost_name }
    ensures same_room { out.new.room.now ≡ out.old.room.now }
{
    out.has_room(most) || flushed(standard, out)
}

// Writes what is collected; whether the script may go on. Where that fails, or a text was lost, it is over, so that the output
// has no hole.
pub fn flushed<I, O: Write, E: Write>(standard: &mut Streams<I, O, E>, out: &mut Output) -> bool
    ensures { seen out.new ≡ over out.old.room.ghost_name out.old.room.now none }
{
    let written = streams::write(&mut standard.output, &mut standard.errors, out.written());
    let whole = written && !out.pending.lost;
    out.clear();
    whole
}

// One line more; no script has so many that the count is full.
pub fn counted(lines: u64) -> u64
    ensures { result ≡ min (lines + 1) 18446744073709551615 }
{
    lines.saturating_add(1)
}

// Says that a line is bad, which ends the script.
pub fn bad_line(out: &mut Output, line: u64)
    ensures { out.new.room.ghost_name ≡ out.old.room.ghost_name }
{
    said_numbers(out, b"bad line", &[line]);
}

// A line of a text and bytes.
#[tactic(auto, using(output::proofs::Laws::collected_loan))]
pub fn said_bytes(out: &mut Output, text: &[u8], bytes: &[u8])
    ensures { out.new.room.ghost_name ≡ out.old.room.ghost_name }
{
    out.put(text);
    hex_text::put(out, bytes);
    out.put(b"\n");
}

// A line of a text and numbers, a space before each.
pub fn said_numbers(out: &mut Output, text: &[u8], numbers: &[u64])
    ensures { out.new.room.ghost_name ≡ out.old.room.ghost_name }
{
    out.put(text);
    separated(out, b" ", numbers);
    out.put(b"\n");
}

// A line of a text, a refusal by its number, which is what is said, how many rows, and those rows of a table.
pub fn said_rows(out: &mut Output, text: &[u8], refusal: u64, table: &[u64], rows: usize)
    ensures { out.new.room.ghost_name ≡ out.old.room.ghost_name }
{
    out.put(text);
    separated(out, b" ", &[refusal, rows as u64]);
    for row in table.chunks_exact(definition::ROW).take(rows) {
        separated(out, b",", row);
    }
    out.put(b"\n");
}

// Numbers behind a space, a separator between them.
fn separated(out: &mut Output, separator: &[u8], numbers: &[u64])
    ensures { out.new.room.ghost_name ≡ out.old.room.ghost_name }
{
    let mut before: &[u8] = b" ";
    for number in numbers {
        said_number(out, before, *number);
        before = separator;
    }
}

// The number stands behind the text.
fn said_number(out: &mut Output, text: &[u8], number: u64)
    ensures same_reference { out.new.room.ghost_name ≡ out.old.room.ghost_name }
    ensures value { seen out.new ≡ collected (collected (seen out.old) text.now) (decimal number) }
{
    out.put(text);
    out.put_number(number);
}
