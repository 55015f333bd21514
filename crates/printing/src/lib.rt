// What the programs print: rows, the end record, a refusal. Each is collected behind what is pending. Written by hand and not as
// `Display`, since a clause knows what `write!` gives only in a String, and no memory is allocated here.
#![tactic(auto)]

ghost use Rattle.std.specs.Prelude.{◌≡◌, ◌∷◌, ◌*◌, ◌+◌, ◌≤◌, length};
ghost use Rattle.definition.specs.Rows.{row_size};
ghost use Rattle.output.specs.Output.{Told, decimal, seen};
ghost use Rattle.printing.specs.Texts.{end_text, four_text, line_most, numbers_text, refused_text, row_most, rows_text, space};

use definition::{End, ROW};
use output::Output;

// The longest text of a row: four numbers of at most 20 digits, three spaces and a newline.
pub const LONGEST_ROW: usize = 84;

// A refusal by its number.
pub fn refusal(out: &mut Output, refusal: u64)
    requires { out.old.pending.length + line_most ≤ length out.old.room.now }
    ensures same_reference { out.new.room.ghost_name ≡ out.old.room.ghost_name }
    ensures told { Told (seen out.old) (refused_text refusal) (seen out.new) }
{
    text(out, b"refused ");
    number(out, refusal);
    text(out, b"\n");
}

pub fn end(out: &mut Output, end: End)
    requires { out.old.pending.length + line_most ≤ length out.old.room.now }
    ensures same_reference { out.new.room.ghost_name ≡ out.old.room.ghost_name }
    ensures told { Told (seen out.old) (end_text end) (seen out.new) }
{
    text(out, b"end ");
    let End {
        bytes,
        lines,
        matches,
        cause,
        ..
    } = end;
    four(out, bytes, lines, matches, cause);
}

// The first rows of a table.
pub fn rows(out: &mut Output, table: &[u64], count: usize)
    requires { (row_size * count ≤ length table.now) × (out.old.pending.length + row_most * count ≤ length out.old.room.now) }
    ensures same_reference { out.new.room.ghost_name ≡ out.old.room.ghost_name }
    ensures told { Told (seen out.old) (rows_text count table.now) (seen out.new) }
{
    let (all, _) = table.as_chunks::<ROW>();
    for numbers in &all[..count] {
        row(out, numbers);
    }
}

// A row has kind, offset, length and number; it is printed as kind, number, offset and length.
fn row(out: &mut Output, numbers: &[u64; ROW])
    requires { out.old.pending.length + row_most ≤ length out.old.room.now }
    ensures told { Told (seen out.old) (numbers_text numbers.now) (seen out.new) }
    ensures most { out.new.pending.length ≤ out.old.pending.length + row_most }
{
    let [kind, offset, length, number] = *numbers;
    four(out, kind, number, offset, length);
}

// Four numbers on a line. The end and a row each name theirs in the order printed, so an array would say no more.
fn four(out: &mut Output, a: u64, b: u64, c: u64, d: u64)
    requires { out.old.pending.length + row_most ≤ length out.old.room.now }
    ensures told { Told (seen out.old) (four_text a b c d) (seen out.new) }
    ensures most { out.new.pending.length ≤ out.old.pending.length + row_most }
{
    number(out, a);
    another(out, b);
    another(out, c);
    another(out, d);
    text(out, b"\n");
}

// A space, then a number.
fn another(out: &mut Output, n: u64)
    requires { out.old.pending.length + 21 ≤ length out.old.room.now }
    ensures told { Told (seen out.old) (space ∷ decimal n) (seen out.new) }
    ensures most { out.new.pending.length ≤ out.old.pending.length + 21 }
{
    text(out, b" ");
    number(out, n);
}

// A number that has room.
#[tactic(auto, using(output::proofs::Laws::told, output::proofs::Laws::decimal_length))]
fn number(out: &mut Output, n: u64)
    requires { out.old.pending.length + 20 ≤ length out.old.room.now }
    ensures told { Told (seen out.old) (decimal n) (seen out.new) }
    ensures most { out.new.pending.length ≤ out.old.pending.length + 20 }
{
    out.put_number(n);
}

// A text that has room.
#[tactic(auto, using(output::proofs::Laws::told))]
fn text(out: &mut Output, text: &[u8])
    requires { out.old.pending.length + length text.now ≤ length out.old.room.now }
    ensures { Told (seen out.old) text.now (seen out.new) }
{
    out.put(text);
}
