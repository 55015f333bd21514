// The literal matcher for programs in C and Rust: a slice is a pointer and a length, and a name is the whole program's.
// bench/literal holds it to other searches.
#![tactic(auto)]

ghost use Rattle.std.specs.Prelude.{◌≡◌};
ghost use Rattle.rare_bytes.specs.Choice.{chosen};
ghost use Rattle.literal_places.specs.Literal.{stands};

use rare_bytes::Pair;

#[unsafe(no_mangle)]
pub extern "C" fn literal_choose(literal: &[u8]) -> Pair
    ensures { result ≡ chosen literal.now }
{
    rare_bytes::choose(literal)
}

#[unsafe(no_mangle)]
pub extern "C" fn literal_contains(line: &[u8], literal: &[u8]) -> bool
    ensures { result ≡ stands literal.now line.now }
{
    literal::contains(line, literal)
}

#[unsafe(no_mangle)]
pub extern "C" fn literal_contains_by(line: &[u8], literal: &[u8], pair: Pair) -> bool
    ensures { result ≡ stands literal.now line.now }
{
    literal::contains_by(line, literal, pair)
}
