// The rows of a match: which lines come as before-context, whether a break comes before them, and the numbers of all of
// them in the table, from the bytes since the last line with a row.
#![tactic(auto)]

ghost use Rattle.std.specs.Prelude.{◌≡◌, ◌*◌, ◌≤◌};
ghost use Rattle.std.proofs.Math.ListN as ListN;
ghost use Rattle.definition.specs.Bounds.{max_input};
ghost use Rattle.definition.specs.Rows.{row_size};
ghost use Rattle.match_rows.specs.MatchTable.{Placing, before_of, break_table, gap_before, line_row, match_table};

use definition::{Kind, Row};
use driver_core::Walk;

// The lines that come as before-context: where they start in the bytes since the last line with a row, and how many they
// are.
#[derive(Clone, Copy)]
pub struct Before {
    pub from: usize,
    pub lines: usize,
}

// The last B of the lines since the last line with a row.
pub fn before_lines(walk: Walk, since: &[u8]) -> Before
    ensures { result ≡ before_of walk since.now }
{
    let c = walk.settings;
    let from = lines::preceding(since, c.terminator, c.before);
    Before {
        from,
        lines: lines::count(&since[from..], c.terminator),
    }
}

// How many breaks come before the first row of a match: one where lines are left over before it. A count, since those who ask count
// rows with it.
pub fn gap_before(walk: Walk, from: usize) -> usize
    ensures { result ≡ gap_before walk from }
{
    usize::from(agreeing::has_context(walk.settings) & walk.given & (0 < from))
}

pub fn put_match(
    walk: Walk,
    since: &[u8],
    table: &mut [u64],
    length: usize,
    before: Before,
    gap: usize,
)
    requires { Placing walk since.now length before gap (ListN.length table.old) }
    ensures { table.new ≡ match_table walk since.now length before gap table.old }
{
    let c = walk.settings;
    let part = &since[before.from..];
    let at = definition::ROW * gap;
    let offset = walk.bytes - (part.len() as u64);
    let number = walk.lines + 1 - (before.lines as u64);
    put_break(table, gap);
    rows::put_before(table, at, part, c.terminator, offset, number);
    rows::put_row(
        table,
        at + definition::ROW * before.lines,
        line_row(walk, length, u64::from(Kind::Match)),
    );
}

fn put_break(table: &mut [u64], gap: usize)
    requires { row_size * gap ≤ ListN.length table.old }
    ensures { table.new ≡ break_table gap table.old }
{
    if 0 < gap {
        let row = Row {
            kind: u64::from(Kind::Break),
            offset: 0,
            length: 0,
            number: 0,
        };
        rows::put_row(table, 0, row);
    }
}

// A line's own row, of any kind.
pub fn line_row(walk: Walk, length: usize, kind: u64) -> Row
    requires { walk.lines ≤ max_input }
    ensures { result ≡ line_row kind walk length }
{
    Row {
        kind: kind,
        offset: walk.bytes,
        length: length as u64,
        number: walk.lines + 1,
    }
}
