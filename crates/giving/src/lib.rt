// One line answered: its rows into the table, and what became of it, from the bytes since the last line with a row, wherever
// these lie.
#![tactic(auto)]

ghost use Rattle.std.specs.Prelude.{◌≡◌, ◌≤◌};
ghost use Rattle.std.proofs.Math.ListN as ListN;
ghost use Rattle.definition.specs.Bounds.{max_input};
ghost use Rattle.definition.specs.Rows.{kind_number};
ghost use Rattle.driver_core.specs.Answer.{given, given_table};
ghost use Rattle.driver_core.specs.Walk.{WalkAgree};
ghost use Rattle.match_rows.specs.MatchTable.{line_row};
ghost use Rattle.giving.specs.Fated.{fated_table, line_rows, line_table, rows_given};

use definition::{Fate, Kind, ROW, Refusal};
use driver_core::{Given, Walk};

// The bytes since the last line with a row, and the length of the line that is answered; refused as `Unsound` or `TableShort`.
pub fn answer(
    walk: Walk,
    since: &[u8],
    table: &mut [u64],
    hit: bool,
    length: usize,
) -> Result<Given, Refusal>
    requires { WalkAgree walk (ListN.length since.now) length }
    ensures value { result ≡ given walk since.now length table.old hit }
    ensures table_after { table.new ≡ given_table walk since.now length table.old hit }
{
    let fate = stepping::becomes(walk, hit);
    let rows = give(walk, since, table, length, fate)?;
    Ok(Given { rows, fate })
}

// The rows of a line, by what becomes of it: how many they are. Walk, bytes, table and length go down side by side: a type for them
// would be made in `answer` and taken apart here and below.
fn give(
    walk: Walk,
    since: &[u8],
    table: &mut [u64],
    length: usize,
    fate: Fate,
) -> Result<usize, Refusal>
    requires { WalkAgree walk (ListN.length since.now) length }
    ensures value { result ≡ rows_given fate walk since.now length (ListN.length table.old) }
    ensures table_after { table.new ≡ fated_table fate walk since.now length table.old }
{
    match fate {
        Fate::Match => give_match(walk, since, table, length),
        Fate::After => give_line(walk, table, length, Kind::After),
        Fate::Other => give_line(walk, table, length, Kind::Other),
        Fate::NoRow => Ok(0),
    }
}

// After-context and other context: one row, the line's own.
fn give_line(walk: Walk, table: &mut [u64], length: usize, kind: Kind) -> Result<usize, Refusal>
    requires { walk.lines ≤ max_input }
    ensures value { result ≡ line_rows (ListN.length table.old) }
    ensures table_after { table.new ≡ line_table (line_row (kind_number kind) walk length) table.old }
{
    if table.len() < ROW {
        return Err(Refusal::TableShort);
    }
    let row = match_rows::line_row(walk, length, u64::from(kind));
    rows::put_row(table, 0, row);
    Ok(1)
}

// A match: a break where lines without a row lie between, the before-context, then the line itself.
fn give_match(walk: Walk, since: &[u8], table: &mut [u64], length: usize) -> Result<usize, Refusal>
    requires { WalkAgree walk (ListN.length since.now) length }
    ensures value { result ≡ rows_given Fate.Match walk since.now length (ListN.length table.old) }
    ensures table_after { table.new ≡ fated_table Fate.Match walk since.now length table.old }
{
    let before = match_rows::before_lines(walk, since);
    if walk.lines < (before.lines as u64) {
        return Err(Refusal::Unsound);
    }
    let gap = match_rows::gap_before(walk, before.from);
    let count = gap + before.lines + 1;
    if table.len() < ROW * count {
        return Err(Refusal::TableShort);
    }
    match_rows::put_match(walk, since, table, length, before, gap);
    Ok(count)
}
