// The driver's loop for programs in C and Rust: a text in memory is offered piece by piece and searched for a literal. The
// rows are summed up and not handed over, so that a caller can time the loop alone, as bench/run does.
#![tactic(auto)]

ghost use Rattle.std.specs.Prelude.{◌*◌, ◌≤◌, length};
ghost use Rattle.definition.specs.Rows.{row_size};

use definition::Settings;
use machine::{Fed, Next};
use searcher::Searcher;

// How many rows there were, and a number mixed of all their numbers.
#[derive(Clone, Copy)]
pub struct Sum {
    pub rows: u64,
    pub mixed: u64,
}

#[derive(Clone, Copy)]
pub struct Searched {
    pub searcher: Searcher,
    // its number, as `Next` tells it
    pub refusal: Option<u64>,
    pub sum: Sum,
}

// The row table is numbers, four a row, as C has them. Pieces have the length asked for, or that of the text where it is 0. Told
// are the refusal or 0, the number of rows, their mixed number, and bytes, lines, matches and cause of the end record, 0 where it
// is refused: numbers, as callers from C take them.
#[unsafe(no_mangle)]
pub extern "C" fn searcher_search(
    before: usize,
    after: usize,
    invert: bool,
    text: &[u8],
    piece: usize,
    literal: &[u8],
    window: &mut [u8],
    table: &mut [u64],
    told: &mut [u64; 7],
) {
    let settings = Settings {
        before,
        after,
        invert,
        ..Settings::plain(b'\n')
    };
    let searched = match Searcher::open(settings, window.len()) {
        Ok(searcher) => search_text(searcher, text, piece, literal, window, table),
        Err(refused) => Searched {
            searcher: refused.next,
            refusal: Some(u64::from(refused.refusal)),
            sum: Sum { rows: 0, mixed: 0 },
        },
    };
    *told = numbers(searched);
}

fn numbers(searched: Searched) -> [u64; 7] {
    let refusal = searched.refusal.unwrap_or(0);
    let [_, bytes, lines, matches, cause, _, _] = ending::record_numbers(
        searched.searcher.end_record(),
    );
    let sum = searched.sum;
    [refusal, sum.rows, sum.mixed, bytes, lines, matches, cause]
}

// The loop of the program `search`, over a text in memory. The one call each of line, answer and feed is here or below, so
// that they are compiled into the loop. Turns are a bound for the proof: nothing lasts so long.
fn search_text(
    searcher: Searcher,
    text: &[u8],
    piece: usize,
    literal: &[u8],
    window: &mut [u8],
    table: &mut [u64],
) -> Searched {
    let pair = rare_bytes::choose(literal);
    let mut s = searcher;
    let mut rest = text;
    let mut sum = Sum { rows: 0, mixed: 0 };
    let mut refusal = None;
    for _ in 0..u64::MAX {
        let hit = literal::contains_by(s.line(window), literal, pair);
        match s.answer(window, table, hit) {
            Ok(answered) => {
                s = answered.next;
                sum = sum_up(sum, table, answered.rows);
            }
            Err(refused) => {
                let fed = feed(s, u64::from(refused.refusal), window, first(rest, piece));
                s = fed.session;
                rest = &rest[fed.taken..];
                match fed.next {
                    Next::Goes => {}
                    Next::Wants | Next::Ends(_) => break,
                    Next::Refuses(k) => {
                        refusal = Some(k);
                        break;
                    }
                }
            }
        }
    }
    Searched {
        searcher: s,
        refusal,
        sum,
    }
}

// Mixes in the first rows of a table: each number and its place count.
fn sum_up(sum: Sum, table: &[u64], rows: usize) -> Sum
    requires { row_size * rows ≤ length table.now }
{
    let mut mixed = sum.mixed;
    for x in &table[..definition::ROW * rows] {
        mixed = mix(mixed, *x);
    }
    Sum {
        rows: sum.rows.wrapping_add(rows as u64),
        mixed,
    }
}

// Three times the number, wrapped, so that nothing mixed in is lost.
fn mix(mixed: u64, x: u64) -> u64 {
    mixed.wrapping_mul(3) ^ x
}

// An answer was refused, by the number given. Where nothing is left of the text its end is told.
#[tactic(auto, using(machine::proofs::Feeds::fed_taken, machine::proofs::Feeds::end_taken))]
fn feed(s: Searcher, refusal: u64, window: &mut [u8], piece: &[u8]) -> Fed<Searcher>
    ensures { result.taken ≤ length piece.now }
{
    let fed = driving::feed(s, refusal, window, piece);
    match fed.next {
        Next::Wants => driving::tell_end(fed.session),
        Next::Goes | Next::Refuses(_) | Next::Ends(_) => fed,
    }
}

// The first bytes of a text, or all of it where it is not longer or 0 are asked for.
fn first(text: &[u8], piece: usize) -> &[u8]
    ensures { length result.now ≤ length text.now }
{
    if piece == 0 {
        return text;
    }
    &text[..piece.min(text.len())]
}
