// 01's T through a window of 6 bytes: prints the rows of P2, one a line. A program over the driver with a matcher and an output
// of its own; all else is `driving`.
#![tactic(auto)]

use definition::{ROW, Settings};
use machine::Next;
use searcher::Searcher;
use std::io::Write;

// Room for three rows.
const TABLE: usize = ROW * 3;

fn main(rt: HostRuntime) {
    let settings = Settings {
        before: 1,
        ..Settings::plain(b'\n')
    };
    if let Ok(searcher) = Searcher::open(settings, 6) {
        search(&mut rt.stdout(), searcher, b"a\nb\nc\nd\ne\n");
    }
}

// Answers every line that waits, and offers what is left of the text; twenty turns are more than enough.
#[tactic(auto, using(machine::proofs::Feeds::fed_taken))]
fn search<O: Write>(to: &mut O, searcher: Searcher, text: &[u8]) {
    let mut window = [0u8; 6];
    let mut table = [0u64; TABLE];
    let mut s = searcher;
    let mut rest = text;
    for _ in 0..20 {
        let hit = is_wanted(s.line(&window));
        match s.answer(&window, &mut table, hit) {
            Ok(answered) => {
                s = answered.next;
                print_rows(to, &table, answered.rows);
            }
            Err(refused) => {
                let fed = driving::feed(s, u64::from(refused.refusal), &mut window, rest);
                s = fed.session;
                rest = &rest[fed.taken..];
                if !matches!(fed.next, Next::Goes) {
                    return;
                }
            }
        }
    }
}

// The answer is yes at b and e.
fn is_wanted(line: &[u8]) -> bool {
    matches!(line, [b'b' | b'e'])
}

// A row is one write: `writeln!` to an output that does not buffer would make one of each number and of each byte between.
fn print_rows<O: Write>(to: &mut O, table: &[u64; TABLE], rows: usize) {
    let (all, _) = table.as_chunks::<ROW>();
    for numbers in all.iter().take(rows) {
        let [kind, offset, length, number] = *numbers;
        let text = [
            digit(kind),
            b' ',
            digit(offset),
            b' ',
            digit(length),
            b' ',
            digit(number),
            b'\n',
        ];
        let _ = to.write_all(&text);
    }
}

// A number of a row; all of them are below 10 here.
fn digit(n: u64) -> u8 {
    b'0' + (n % 10) as u8
}
