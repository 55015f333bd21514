// Whether a walk's numbers agree: its settings are allowed, and nothing contradicts what lies since the last line with a row and
// ahead.
#![tactic(auto)]

ghost use Rattle.std.specs.Prelude.{◌≡◌, ◌+◌, nat_le};
ghost use Rattle.definition.specs.Bounds.{allowed, contextual, limit_in_range, max_input};
ghost use Rattle.driver_core.specs.Walk.{walk_agrees, within_limit};

use definition::Settings;
use driver_core::Walk;

// Whether context is asked for.
#[tactic(auto, unfolding(definition::specs::Bounds::contextual))]
pub fn has_context(c: Settings) -> bool
    ensures { result ≡ contextual c }
{
    (0 < c.before) | (0 < c.after)
}

fn limit_in_range(limit: Option<u64>) -> bool
    ensures { result ≡ limit_in_range limit }
{
    limit.is_none_or(|n| n <= definition::MAX_LIMIT)
}

// The settings that an opening serves.
#[tactic(auto, unfolding(definition::specs::Bounds::allowed))]
pub fn are_allowed(c: Settings) -> bool
    ensures { result ≡ allowed c }
{
    (c.before <= definition::MAX_CONTEXT)
        & (c.after <= definition::MAX_CONTEXT)
        & limit_in_range(c.limit)
        & !(c.passthru & has_context(c))
}

fn within_limit(limit: Option<u64>, matches: u64) -> bool
    ensures { result ≡ within_limit limit matches }
{
    limit.is_none_or(|n| matches <= n)
}

// The bytes gone through and those ahead are within the input's size; a sum that would wrap is not.
fn within_size(bytes: u64, ahead: usize) -> bool
    ensures { result ≡ nat_le (bytes + ahead) max_input }
{
    bytes
        .checked_add(ahead as u64)
        .is_some_and(|taken| taken <= definition::MAX_INPUT)
}

// Whether a walk's numbers agree with each other, and with how many bytes lie since the last line with a row and ahead.
#[tactic(auto, unfolding(driver_core::specs::Walk::walk_agrees, driver_core::specs::Walk::walk_tests))]
pub fn agree(walk: Walk, since: usize, ahead: usize) -> bool
    ensures { result ≡ walk_agrees walk since ahead }
{
    let c = walk.settings;
    are_allowed(c)
        & ((since as u64) <= walk.bytes)
        & within_size(walk.bytes, ahead)
        & (walk.lines <= walk.bytes)
        & (walk.matches <= walk.lines)
        & within_limit(c.limit, walk.matches)
        & (walk.left <= c.after)
        & ((walk.left == 0) | (since == 0))
}
