// A walk's steps: before any line, what becomes of the next one by its answer, and the walk after it.
#![tactic(auto)]

ghost use Rattle.std.specs.Prelude.{◌≡◌, ◌≤◌};
ghost use Rattle.definition.specs.Bounds.{max_input};
ghost use Rattle.definition.specs.Definition.{after_left_next, fate, going_next, is_match, limit_reached, matches_next, selected};
ghost use Rattle.definition.specs.State.{given_next};
ghost use Rattle.driver_core.specs.Answer.{gets_row};
ghost use Rattle.driver_core.specs.Step.{Stepping, walk_step};
ghost use Rattle.driver_core.specs.Walk.{walk_start};

use definition::{Fate, Going, Settings};
use driver_core::Walk;

fn limit_reached(limit: Option<u64>, matches: u64) -> bool
    ensures { result ≡ limit_reached limit matches }
{
    limit.is_some_and(|n| n <= matches)
}

// Whether the run goes on; where both stops hold, the limit is the cause.
#[tactic(auto, unfolding(definition::specs::Definition::going_next))]
fn going_next(c: Settings, unselected: bool, matches: u64, left: usize) -> Going
    ensures { result ≡ going_next c unselected matches left }
{
    if limit_reached(c.limit, matches) & (left == 0) & !c.passthru {
        Going::LimitMet
    } else if c.stop & unselected & (0 < matches) {
        Going::NonmatchMet
    } else {
        Going::On
    }
}

// Before any line; a limit of 0 stops at once.
pub fn start(settings: Settings) -> Walk
    ensures { result ≡ walk_start settings }
{
    Walk {
        settings,
        bytes: 0,
        lines: 0,
        matches: 0,
        left: 0,
        given: false,
        going: going_next(settings, false, 0, 0),
    }
}

// What becomes of the next line, by its answer.
#[tactic(auto, unfolding(definition::specs::Definition::fate))]
pub fn becomes(walk: Walk, hit: bool) -> Fate
    ensures { result ≡ fate walk.settings (selected walk.settings walk.matches hit) walk.left }
{
    let c = walk.settings;
    if is_selected(c, walk.matches, hit) {
        Fate::Match
    } else if 0 < walk.left {
        Fate::After
    } else if c.passthru {
        Fate::Other
    } else {
        Fate::NoRow
    }
}

fn is_selected(c: Settings, matches: u64, hit: bool) -> bool
    ensures { result ≡ selected c matches hit }
{
    !limit_reached(c.limit, matches) & (hit != c.invert)
}

// Whether the line gets a row of its own.
pub fn gets_row(fate: Fate) -> bool
    ensures { result ≡ gets_row fate }
{
    fate != Fate::NoRow
}

// The walk after a line of some length, by what became of it.
#[tactic(auto, unfolding(driver_core::specs::Step::walk_step))]
pub fn step(walk: Walk, length: usize, fate: Fate) -> Walk
    requires { Stepping walk length }
    ensures { result ≡ walk_step fate walk length }
{
    let c = walk.settings;
    let matches = matches_next(fate, walk.matches);
    let left = left_next(fate, c, walk.left);
    Walk {
        settings: c,
        bytes: walk.bytes + (length as u64),
        lines: walk.lines + 1,
        matches,
        left,
        given: given_next(fate, walk.given),
        going: going_next(c, !is_match(fate), matches, left),
    }
}

fn is_match(fate: Fate) -> bool
    ensures { result ≡ is_match fate }
{
    fate == Fate::Match
}

fn left_next(fate: Fate, c: Settings, left: usize) -> usize
    ensures { result ≡ after_left_next fate c left }
{
    match fate {
        Fate::Match => c.after,
        Fate::After => left.saturating_sub(1),
        Fate::Other | Fate::NoRow => left,
    }
}

fn matches_next(fate: Fate, matches: u64) -> u64
    requires { matches ≤ max_input }
    ensures { result ≡ matches_next fate matches }
{
    if is_match(fate) { matches + 1 } else { matches }
}

fn given_next(fate: Fate, given: bool) -> bool
    ensures { result ≡ given_next fate given }
{
    given | gets_row(fate)
}
