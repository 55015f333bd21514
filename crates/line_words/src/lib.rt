// The words of a line, which single spaces separate, and the decimal numbers that they write.
#![tactic(auto)]

ghost use Rattle.std.specs.Prelude.{◌≡◌};
ghost use Rattle.line_words.specs.Numbers.{decimal_of, digit_behind, digits_behind, is_dash};
ghost use Rattle.line_words.specs.Words.{spaces_of, word_of};

// How many spaces a line has: one fewer than its words, where an empty word counts.
#[tactic(auto, unfolding(crate::specs::Words::spaces_of))]
pub fn spaces(line: &[u8]) -> usize
    ensures { result ≡ spaces_of line.now }
{
    line.iter().filter(|x| **x == b' ').count()
}

// The word after the first n spaces; empty where there are fewer.
pub fn word(line: &[u8], n: usize) -> &[u8]
    ensures { result.now ≡ word_of n line.now }
{
    let mut rest = line;
    for _ in 0..n {
        rest = &rest[lines::step(rest, b' ')..];
    }
    &rest[..lines::first_place(rest, b' ')]
}

// The number that the word after n spaces writes.
pub fn number_at(line: &[u8], n: usize) -> Option<u64>
    ensures { result ≡ decimal_of (word_of n line.now) }
{
    decimal(word(line, n))
}

// A decimal number without leading zeros that 64 bits hold.
pub fn decimal(word: &[u8]) -> Option<u64>
    ensures { result ≡ decimal_of word.now }
{
    match word {
        [] => None,
        [b'0', _, ..] => None,
        _ => digits(word),
    }
}

fn digits(word: &[u8]) -> Option<u64>
    ensures { result ≡ digits_behind 0 word.now }
{
    let mut value = 0;
    for glyph in word {
        value = appended(value, *glyph)?;
    }
    Some(value)
}

// A number with one more digit behind it.
fn appended(value: u64, glyph: u8) -> Option<u64>
    ensures { result ≡ digit_behind value glyph }
{
    if !glyph.is_ascii_digit() {
        return None;
    }
    value.checked_mul(10)?.checked_add(u64::from(glyph - b'0'))
}

#[tactic(auto, unfolding(crate::specs::Numbers::is_dash))]
pub fn is_dash(word: &[u8]) -> bool
    ensures { result ≡ is_dash word.now }
{
    word == b"-".as_slice()
}
