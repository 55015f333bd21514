// What lies ahead of a walk: the line that waits there, whether anything remains, and the end record once nothing does.
#![tactic(auto)]

ghost use Rattle.std.specs.Prelude.{◌≡◌, ◌||◌, if◌then◌else◌, ◌==◌};
ghost use Rattle.definition.specs.Definition.{cause_of};
ghost use Rattle.driver_core.specs.Walk.{is_on, line_ahead, remains_ahead, shown_ahead, walk_end};

use definition::{Cause, End, Going};
use driver_core::Walk;

pub fn is_on(going: Going) -> bool
    ensures { result ≡ is_on going }
{
    going == Going::On
}

// The line that waits at the front of the bytes ahead, where more may come or not.
#[tactic(auto, using(lines::proofs::Laws::found_at, lines::proofs::Laws::found_nothing), unfolding(driver_core::specs::Walk::line_ahead, driver_core::specs::Walk::waits_ahead))]
pub fn next_line(walk: Walk, more: bool, ahead: &[u8]) -> Option<usize>
    ensures { result ≡ line_ahead walk more ahead.now }
{
    if !is_on(walk.going) {
        return None;
    }
    match lines::find(ahead, walk.settings.terminator) {
        Some(i) => Some(i + 1),
        None => rest(more, ahead.len()),
    }
}

// A rest without terminator is a line once no more may come.
fn rest(more: bool, length: usize) -> Option<usize>
    ensures { result ≡ (if more || length == 0 then None else Some length) }
{
    if more | (length == 0) {
        None
    } else {
        Some(length)
    }
}

// The waiting line without its terminator, as that part of the bytes ahead itself; empty where none waits.
#[tactic(auto, using(lines::proofs::Laws::without_line), unfolding(driver_core::specs::Walk::line_ahead, driver_core::specs::Walk::shown_ahead))]
pub fn line(walk: Walk, more: bool, ahead: &[u8]) -> &[u8]
    ensures result_value { result.now ≡ shown_ahead walk more ahead.now }
    ensures ref_ptr_value { result.ref_ptr ≡ ahead.entry.ref_ptr }
{
    match next_line(walk, more, ahead) {
        Some(length) => lines::without_terminator(&ahead[..length], walk.settings.terminator),
        None => &ahead[..0],
    }
}

// Lines or input remain, and no stop has come.
#[tactic(auto, unfolding(driver_core::specs::Walk::remains_ahead))]
pub fn is_unfinished(walk: Walk, more: bool, ahead: usize) -> bool
    ensures { result ≡ remains_ahead walk more ahead }
{
    is_on(walk.going) & (more | (0 < ahead))
}

// Why the search ends, where it met a Quit byte or not.
pub fn cause_of(walk: Walk, quit: bool) -> Cause
    ensures { result ≡ cause_of walk.going quit }
{
    match walk.going {
        Going::On if quit => Cause::QuitByte,
        Going::On => Cause::InputEnd,
        Going::LimitMet => Cause::Limit,
        Going::NonmatchMet => Cause::Nonmatch,
    }
}

// What was gone through, with a cause, which may be any number, and a place.
#[tactic(auto, unfolding(driver_core::specs::Walk::walk_end))]
pub fn end_with(walk: Walk, cause: u64, place: Option<u64>) -> End
    ensures { result ≡ walk_end walk cause place }
{
    End {
        bytes: walk.bytes,
        lines: walk.lines,
        matches: walk.matches,
        cause,
        offset: place,
    }
}
