// Which two bytes of a literal are looked for first. Any two give the right answer; the rarer they are in the text, the
// fewer places are compared in vain.
#![tactic(auto)]

ghost use Rattle.std.specs.Prelude.{◌≡◌};
ghost use Rattle.definition.specs.Text.{first_place};
ghost use Rattle.rare_bytes.specs.Choice.{chosen, common, rarest_but};

// Two places in a literal, whose bytes are looked for first. Laid out as in C, for callers from there.
#[repr(C)]
#[derive(Clone, Copy)]
pub struct Pair {
    pub first: usize,
    pub second: usize,
}

// The pair that is likely to be fastest, to be chosen once for many lines.
pub fn choose(literal: &[u8]) -> Pair
    ensures { result ≡ chosen literal.now }
{
    let first = rarest_but(literal, None);
    let second = rarest_but(literal, Some(first));
    Pair { first, second }
}

// The first place of the rarest byte of the literal, but for the place `but`.
fn rarest_but(literal: &[u8], but: Option<usize>) -> usize
    ensures { result ≡ rarest_but but literal.now }
{
    let mut best = 0;
    let mut top = 0;
    for (at, b) in literal.iter().enumerate() {
        let rarity = rarity_of(*b);
        if top < rarity && but != Some(at) {
            best = at;
            top = rarity;
        }
    }
    best
}

// A guess at call records: spaces and digits first, then letters as often as in English; what is not listed is rarest.
fn rarity_of(b: u8) -> usize
    ensures { result ≡ first_place b common }
{
    lines::first_place(b" 0123456789etaoinsrhldcumfpgwybvkxjqz", b)
}
