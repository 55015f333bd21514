// How `search` stands next. Each function but `start` makes one `Search` from another and feeds the driver nothing; `wanting`,
// `refused` and `finished` alone touch a buffer.
#![tactic(auto)]

ghost use Rattle.std.specs.Prelude.{◌≡◌, List, ℕ, ◌+◌, ◌≤◌, ◌<◌, length};
ghost use Rattle.line_buffer.specs.Buffer.{rolled};
ghost use Rattle.search_machine.specs.Search.{starts};
ghost use Rattle.printing.specs.Texts.{end_text, line_most, refused_text};
ghost use Rattle.search_machine.specs.Standing.{OverWith, begins, begun_with, going_with, opened_with, over_with, seen, wanting_with, with_more, written_out};

use definition::End;
use output::{Output, Pending};
use rare_bytes::Pair;
use search_machine::{Phase, Search, Stage};
use searcher::Searcher;

// Nothing is read yet, and nothing opened.
pub fn start() -> Search
    ensures value { result ≡ begins }
    ensures by_index { (window literal input : List ℕ) → seen result window literal input ≡ starts window }
{
    Search {
        stage: Stage::First,
        phase: Phase::Going,
        searcher: Searcher::closed(),
        size: 0,
        pair: Pair {
            first: 0,
            second: 0,
        },
        from: 0,
        to: 0,
        pending: output::nothing_pending(),
    }
}

// The search is opened; the second line starts at a place of the input.
pub fn opened(s: Search, searcher: Searcher, from: usize) -> Search
    ensures { result ≡ opened_with s searcher from }
{
    Search {
        stage: Stage::Second,
        phase: Phase::Going,
        searcher,
        from,
        ..s
    }
}

// The text begins at a place of the input.
pub fn begun(s: Search, size: usize, pair: Pair, from: usize) -> Search
    ensures { result ≡ begun_with s size pair from }
{
    Search {
        stage: Stage::Text,
        phase: Phase::Going,
        size,
        pair,
        from,
        ..s
    }
}

// The search goes on: its searcher, the place of the input where what is left starts, and what is pending.
pub fn going(s: Search, searcher: Searcher, at: usize, pending: Pending) -> Search
    ensures { result ≡ going_with s searcher at pending }
{
    Search {
        phase: Phase::Going,
        searcher,
        from: at,
        pending,
        ..s
    }
}

// A read is wanted. What is left moves to the input's front, so that there is room behind it.
pub fn wanting(s: Search, input: &mut [u8]) -> Search
    requires { (s.from ≤ s.to) × (s.to ≤ length input.old) }
    ensures value { result ≡ wanting_with s }
    ensures input_after { input.new ≡ rolled s.from s.to input.old }
{
    let from = s.from;
    let to = s.to;
    line_buffer::roll(input, from, to);
    let front = 0;
    Search {
        phase: Phase::Wants,
        from: front,
        to: to - from,
        ..s
    }
}

// So many bytes lie behind what was left.
pub fn more(s: Search, n: usize) -> Search
    requires { s.to + n < 9223372036854775808 }
    ensures { result ≡ with_more s n }
{
    Search {
        phase: Phase::Going,
        to: s.to + n,
        ..s
    }
}

// What was pending is written.
pub fn written(s: Search) -> Search
    ensures { result ≡ written_out s }
{
    Search {
        pending: output::nothing_pending(),
        ..s
    }
}

// All is told but for what is pending, and last of it a refusal, by its number.
pub fn refused(s: Search, out: &mut [u8], refusal: u64) -> Search
    requires { s.pending.length + line_most ≤ length out.old }
    ensures { OverWith s (refused_text refusal) out.old result out.new }
{
    let mut told = Output {
        room: out,
        pending: s.pending,
    };
    printing::refusal(&mut told, refusal);
    over(s, told.pending)
}

// All is told but for what is pending, and last of it the end record.
pub fn finished(s: Search, out: &mut [u8], end: End) -> Search
    requires { s.pending.length + line_most ≤ length out.old }
    ensures { OverWith s (end_text end) out.old result out.new }
{
    let mut told = Output {
        room: out,
        pending: s.pending,
    };
    printing::end(&mut told, end);
    over(s, told.pending)
}

// All is told but for what is pending.
pub fn over(s: Search, pending: Pending) -> Search
    ensures { result ≡ over_with s pending }
{
    Search {
        phase: Phase::Over,
        pending,
        ..s
    }
}
