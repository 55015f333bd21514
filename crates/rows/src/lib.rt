// Rows into the caller's table of numbers, four a row, as C lends it and 01 has them: what the Rust hands to a sink.
#![tactic(auto)]

ghost use Rattle.std.specs.Prelude.{◌≡◌, ◌+◌, ◌*◌, ◌≤◌, length};
ghost use Rattle.definition.specs.Rows.{flat, row_size};
ghost use Rattle.definition.specs.Text.{lines, put_at};
ghost use Rattle.rows.specs.Table.{BeforeFits, before_numbers};

use definition::{Kind, ROW, Row};

// One row, from a place in the table on. Four stores: copy_from_slice would be no shorter, and the numbers would go by way of the
// stack.
pub fn put_row(table: &mut [u64], at: usize, row: Row)
    requires { at + row_size ≤ length table.old }
    ensures { table.new ≡ put_at at (flat row) table.old }
{
    table[at] = row.kind;
    table[at + 1] = row.offset;
    table[at + 2] = row.length;
    table[at + 3] = row.number;
}

// The rows of before-context: one for each line of some bytes, which start at an offset and a line number.
pub fn put_before(
    table: &mut [u64],
    at: usize,
    part: &[u8],
    terminator: u8,
    offset: u64,
    number: u64,
)
    requires { BeforeFits (length table.old) at (length part.now) (length (lines terminator part.now)) offset number }
    ensures { table.new ≡ put_at at (before_numbers terminator offset number part.now) table.old }
{
    let mut rest = part;
    let mut place = at;
    let mut row = Row {
        kind: u64::from(Kind::Before),
        offset: offset,
        length: 0,
        number: number,
    };
    while !rest.is_empty() {
        let length = lines::step(rest, terminator);
        row.length = length as u64;
        put_row(table, place, row);
        rest = &rest[length..];
        place += ROW;
        row.offset += row.length;
        row.number += 1;
    }
}
