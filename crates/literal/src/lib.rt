// The literal matcher: whether a literal stands in a line.
//
// Two bytes of the literal are looked for at many places at once, and the whole literal is compared only where both stand.
// The loop over a fixed count of places, `Sought::any_hit`, has no branch in it, so that it becomes vector code.
#![tactic(auto)]

ghost use Rattle.std.specs.Prelude.{◌≡◌, ◌+◌, ◌<◌, ◌≤◌, ℕ, Bool};
ghost use Rattle.literal_places.specs.Literal.{stands};
ghost use Rattle.literal_places.specs.Sweeps.{Swept};

use literal_places::Sought;
use rare_bytes::Pair;

// For a literal that is looked for in one line only: its first and its last byte cost no choice.
pub fn contains(line: &[u8], literal: &[u8]) -> bool
    ensures { result ≡ stands literal.now line.now }
{
    contains_by(
        line,
        literal,
        Pair {
            first: 0,
            second: literal.len(),
        },
    )
}

// The same by any pair; a place past the literal's end counts as its last.
pub fn contains_by(line: &[u8], literal: &[u8], pair: Pair) -> bool
    ensures { result ≡ stands literal.now line.now }
{
    let size = literal.len();
    if size == 0 {
        return true;
    }
    if line.len() < size {
        return false;
    }
    search(Sought {
        line,
        literal,
        first: pair.first.min(size - 1),
        second: pair.second.min(size - 1),
        places: line.len() - size + 1,
    })
}

// As many places at a time as there are.
fn search(sought: Sought) -> bool
    ensures { Swept sought.entry.literal.now sought.entry.line.now 0 sought.entry.places result }
{
    let to = sought.places;
    if 64 <= to {
        return sweep::<64, _>(sought, 0, to, by_16);
    }
    if 16 <= to {
        return by_16(sought, 0, to);
    }
    literal_places::each(sought, 0, to)
}

// Sixteen places at a time, in lines too short for 64 and where a block of 64 has a hit.
fn by_16(sought: Sought, from: usize, to: usize) -> bool
    requires { (from + 16 ≤ to) × (to ≤ sought.places) }
    ensures { Swept sought.entry.literal.now sought.entry.line.now from to result }
{
    sweep::<16, _>(sought, from, to, literal_places::each)
}

// N places at a time; `closer` looks at a block with a hit.
// The last block reaches back over places already seen, so that it is whole too.
// `closer` is a function given by name: a closure with captures cost 10 % more instructions in bench/literal.
fn sweep<const N: usize, F: Fn(Sought, usize, usize) -> bool>(
    sought: Sought,
    from: usize,
    to: usize,
    closer: F,
) -> bool
    requires room { (from + N ≤ to) × (0 < N) × (to ≤ sought.places) }
    requires asked { (a b : ℕ) → a + N ≤ b → b ≤ to → F.pre closer sought a b }
    requires told { (a b : ℕ) (r : Bool) → a + N ≤ b → b ≤ to → F.post closer sought a b r → Swept sought.literal.now sought.line.now a b r }
    ensures { Swept sought.entry.literal.now sought.entry.line.now from to result }
{
    let last = to - N;
    for at in (from..last).step_by(N) {
        if sought.any_hit(at, N) && closer(sought, at, at + N) {
            return true;
        }
    }
    sought.any_hit(last, N) && closer(sought, last, to)
}
