// The two lines before the text: each has its newline, and at most 1,024 bytes before it.
#![tactic(auto)]

ghost use Rattle.std.specs.Prelude.{◌≡◌, ◌+◌, ◌≤◌, length};
ghost use Rattle.session.specs.Calls.{open_result};
ghost use Rattle.search_machine.specs.declared.Stage.TheVariants.{First, Second};
ghost use Rattle.search_machine.specs.Head.{Stands, looked_at};
ghost use Rattle.search_machine.specs.Standing.{HeadReady, OpenedTo, Turned, seen};
ghost use Rattle.printing.specs.Texts.{line_most};

use definition::{Refusal, Settings};
use search_machine::{Search, Seen};
use searcher::Searcher;

// The longest either may be, without its newline.
pub const LONGEST: usize = 1_024;

// How a line stands that starts at the front of some bytes.
#[tactic(auto, using(lines::proofs::Laws::found_or, definition::proofs::Terminator::first_le), unfolding(search_machine::specs::Head::looked_at))]
fn look(bytes: &[u8]) -> Seen
    ensures value { result ≡ looked_at bytes.now }
    ensures stands { Stands result bytes.now }
{
    match lines::find(bytes, b'\n') {
        Some(length) if length <= LONGEST => Seen::Whole(length),
        None if bytes.len() <= LONGEST => Seen::Unfinished,
        _ => Seen::TooLong,
    }
}

// The first line, which says what to open.
pub fn first(s: Search, window: &[u8], literal: &[u8], input: &mut [u8], out: &mut [u8]) -> Search
    requires { (s.stage ≡ First) × HeadReady s literal.now input.old out.old }
    ensures { Turned (seen s window.now literal.now input.old) result window.now literal.now input.new out.new }
{
    let from = s.from;
    let to = s.to;
    match look(&input[from..to]) {
        Seen::Whole(length) => {
            let end = from + length;
            match forms::first_line(&input[from..end]) {
                Some(settings) => open(s, settings, window.len(), end + 1, out),
                None => standing::refused(s, out, u64::from(Refusal::BadSettings)),
            }
        }
        Seen::Unfinished => standing::wanting(s, input),
        Seen::TooLong => standing::refused(s, out, u64::from(Refusal::BadSettings)),
    }
}

// Opens the search; the second line starts at a place of the input.
fn open(s: Search, settings: Settings, window: usize, from: usize, out: &mut [u8]) -> Search
    requires { s.pending.length + line_most ≤ length out.old }
    ensures { OpenedTo s (open_result settings window) from out.old result out.new }
{
    match Searcher::open(settings, window) {
        Ok(searcher) => standing::opened(s, searcher, from),
        Err(refused) => standing::refused(s, out, u64::from(refused.refusal)),
    }
}

// The second line, which is the literal; it moves to a room of its own, since the input is read over.
pub fn second(
    s: Search,
    window: &[u8],
    literal: &mut [u8],
    input: &mut [u8],
    out: &mut [u8],
) -> Search
    requires { (s.stage ≡ Second) × HeadReady s literal.old input.old out.old }
    ensures { Turned (seen s window.now literal.old input.old) result window.now literal.new input.new out.new }
{
    let from = s.from;
    let to = s.to;
    match look(&input[from..to]) {
        Seen::Whole(length) => {
            let end = from + length;
            let text = &input[from..end];
            literal[..length].copy_from_slice(text);
            standing::begun(s, length, rare_bytes::choose(&literal[..length]), end + 1)
        }
        Seen::Unfinished => standing::wanting(s, input),
        Seen::TooLong => standing::refused(s, out, u64::from(Refusal::BadSettings)),
    }
}
