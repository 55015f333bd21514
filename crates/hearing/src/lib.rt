// What a read gave: bytes, the end, a signal or a failure, each as the machine hears it.
#![tactic(auto)]

ghost use Rattle.std.specs.Prelude.{◌≡◌, List, ℕ, ◌+◌, ◌≤◌, length};
ghost use Rattle.search_machine.specs.declared.Stage.TheVariants.{Text};
ghost use Rattle.search_machine.specs.Standing.{Heard, Hearing, OverWith};
ghost use Rattle.printing.specs.Texts.{line_most};
ghost use Rattle.streams.specs.Moves.{failed_read};

use definition::Refusal;
use machine::Next;
use output::Output;
use search_machine::{Search, Stage};
use std::io::Write;
use streams::Failure;

// What a read gave: bytes behind those that were left, the end where it moved none, or a failure, which is never the end.
pub fn heard<E: Write>(
    errors: &mut E,
    s: Search,
    got: Result<usize, Failure>,
    input: &[u8],
    out: &mut [u8],
) -> Search
    requires { Hearing s got input.now out.old }
    ensures { (window literal : List ℕ) → Heard s got window literal input.now result out.new }
{
    match got {
        Ok(0) => ended(s, out),
        Ok(n) => standing::more(s, n),
        Err(Failure::Interrupted) => s,
        Err(Failure::Errno(reason)) => failed(errors, s, out, reason),
    }
}

// A read failed.
#[tactic(auto, using(output::proofs::Laws::told))]
fn failed<E: Write>(errors: &mut E, s: Search, out: &mut [u8], reason: i32) -> Search
    requires { s.pending.length + line_most ≤ length out.old }
    ensures { OverWith s failed_read out.old result out.new }
{
    let mut told = Output {
        room: out,
        pending: s.pending,
    };
    streams::tell_failed_read(errors, &mut told, reason);
    standing::over(s, told.pending)
}

// The end has come. In the first two lines that is a refusal: either misses its newline.
fn ended(s: Search, out: &mut [u8]) -> Search
    requires { s.pending.length + line_most ≤ length out.old }
    ensures { (window literal input : List ℕ) → Hearing s (Ok 0) input out.old → Heard s (Ok 0) window literal input result out.new }
{
    match s.stage {
        Stage::First | Stage::Second => standing::refused(s, out, u64::from(Refusal::BadSettings)),
        Stage::Text => text_ended(s, out),
    }
}

// The end of the text has come.
fn text_ended(s: Search, out: &mut [u8]) -> Search
    requires { (s.stage ≡ Text) × (s.pending.length + line_most ≤ length out.old) }
    ensures { (window literal input : List ℕ) → Hearing s (Ok 0) input out.old → Heard s (Ok 0) window literal input result out.new }
{
    let fed = driving::tell_end(s.searcher);
    match fed.next {
        Next::Goes => standing::going(s, fed.session, s.from, s.pending),
        Next::Wants => s,
        Next::Refuses(k) => standing::refused(s, out, k),
        Next::Ends(end) => standing::finished(s, out, end),
    }
}
