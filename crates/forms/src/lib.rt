// The first line of an input, `before after invert pass limit`, and its flags and limits.
#![tactic(auto)]

ghost use Rattle.std.specs.Prelude.{◌≡◌};
ghost use Rattle.forms.specs.First.{asked_of};
ghost use Rattle.forms.specs.Limits.{flag_of, limit_of};

use definition::Settings;

// `before after invert pass limit`: a newline for terminator, no binary and no stop on a nonmatch. Whether the values are
// in range is the opening's to say.
#[tactic(auto, unfolding(crate::specs::First::asked_of))]
pub fn first_line(line: &[u8]) -> Option<Settings>
    ensures { result ≡ asked_of line.now }
{
    if line_words::spaces(line) != 4 {
        return None;
    }
    let before = line_words::number_at(line, 0)?;
    let after = line_words::number_at(line, 1)?;
    let invert = flag(line_words::number_at(line, 2)?)?;
    let passthru = flag(line_words::number_at(line, 3)?)?;
    let limit = limit(line_words::word(line, 4))?;
    Some(Settings {
        before: before as usize,
        after: after as usize,
        invert,
        passthru,
        limit,
        ..Settings::plain(b'\n')
    })
}

// A flag: 0 or 1.
pub fn flag(number: u64) -> Option<bool>
    ensures { result ≡ flag_of number }
{
    match number {
        0 => Some(false),
        1 => Some(true),
        _ => None,
    }
}

// A limit: a number, or `-` for none.
#[tactic(auto, unfolding(crate::specs::Limits::limit_of))]
pub fn limit(word: &[u8]) -> Option<Option<u64>>
    ensures { result ≡ limit_of word.now }
{
    if line_words::is_dash(word) {
        return Some(None);
    }
    Some(Some(line_words::decimal(word)?))
}
