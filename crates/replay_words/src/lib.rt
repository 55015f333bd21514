// A line of a script for `replay`, as words: which command it is, with its numbers, and the settings of an opening. What
// each command does is in `replay_calls` and `replay_answers`; the commands are listed in `replaying`.
#![tactic(auto)]

ghost use Rattle.std.specs.Prelude.{◌≡◌};
ghost use Rattle.replay_words.specs.Commands.{answer_of, at_most, lend_of, offer_of, poke_of, table_of};

use definition::{Binary, Settings};

// The room that is lent from: one byte more than a window may have.
pub const ROOM: usize = definition::MAX_WINDOW + 1;

// Two rows more than an answer gives, which is at most so many before, a break and a match.
pub const TABLE: usize = definition::ROW * (definition::MAX_CONTEXT + 4);

// The longest piece that a command writes.
pub const PIECE: usize = 4_096;

// What is lent to the calls, from the front of each: the room as window, the table, and the bytes that a line writes.
#[derive(Drop)]
pub struct Memory {
    pub room: [u8; ROOM],
    pub table: [u64; TABLE],
    pub bytes: [u8; PIECE],
}

// What a line asks for. Bytes that it writes stand at the front of the bytes lent to `command_of`.
#[derive(Clone, Copy)]
pub enum Command {
    // the window's length
    Open(Settings, usize),
    // so many bytes
    Offer(usize),
    Waits,
    Line,
    // whether the line is wanted, and how many numbers of the table are lent
    Answer(bool, usize),
    // from and to
    Table(usize, usize),
    End,
    Record,
    Window,
    // where, and so many bytes
    Poke(usize, usize),
    Lend(usize),
}

// A command is told by its name and the number of its words; a line of another form is none.
pub fn command_of(line: &[u8], bytes: &mut [u8]) -> Option<Command> {
    let name = line_words::word(line, 0);
    match line_words::spaces(line) {
        0 => of_one_word(name),
        1 => of_two_words(name, line_words::word(line, 1), bytes),
        2 => of_three_words(
            name,
            line_words::number_at(line, 1),
            line_words::word(line, 2),
            bytes,
        ),
        9 => of_ten_words(name, line),
        _ => None,
    }
}

fn of_one_word(name: &[u8]) -> Option<Command> {
    match name {
        b"line" => Some(Command::Line),
        b"waiting" => Some(Command::Waits),
        b"end" => Some(Command::End),
        b"record" => Some(Command::Record),
        b"window" => Some(Command::Window),
        _ => None,
    }
}

fn of_two_words(name: &[u8], word: &[u8], bytes: &mut [u8]) -> Option<Command> {
    match name {
        b"offer" => offer_of(hex_text::read(word, bytes)),
        b"lend" => lend_of(line_words::decimal(word)),
        _ => None,
    }
}

fn of_three_words(
    name: &[u8],
    first: Option<u64>,
    word: &[u8],
    bytes: &mut [u8],
) -> Option<Command> {
    match name {
        b"answer" => answer_of(first, line_words::decimal(word)),
        b"poke" => poke_of(first, hex_text::read(word, bytes)),
        b"table" => table_of(first, line_words::decimal(word)),
        _ => None,
    }
}

// The window's length, the last word of an opening, is a number too.
fn of_ten_words(name: &[u8], line: &[u8]) -> Option<Command> {
    match name {
        b"open" => Some(Command::Open(
            settings_of(line)?,
            line_words::number_at(line, 9)? as usize,
        )),
        _ => None,
    }
}

fn offer_of(piece: Option<usize>) -> Option<Command>
    ensures { result ≡ offer_of piece }
{
    Some(Command::Offer(piece?))
}

fn lend_of(length: Option<u64>) -> Option<Command>
    ensures { result ≡ lend_of length }
{
    Some(Command::Lend(at_most(length?, ROOM)?))
}

fn answer_of(hit: Option<u64>, size: Option<u64>) -> Option<Command>
    ensures { result ≡ answer_of hit size }
{
    Some(Command::Answer(forms::flag(hit?)?, at_most(size?, TABLE)?))
}

fn table_of(first: Option<u64>, last: Option<u64>) -> Option<Command>
    ensures { result ≡ table_of first last }
{
    let to = at_most(last?, TABLE)?;
    Some(Command::Table(at_most(first?, to)?, to))
}

// The bytes have room behind the place.
fn poke_of(place: Option<u64>, piece: Option<usize>) -> Option<Command>
    ensures { result ≡ poke_of place piece }
{
    let count = piece?;
    let at = at_most(place?, ROOM)?;
    (count <= ROOM - at).then_some(Command::Poke(at, count))
}

// A number that is at most so large.
fn at_most(number: u64, most: usize) -> Option<usize>
    ensures { result ≡ at_most number most }
{
    usize::try_from(number).ok().filter(|n| *n <= most)
}

// The settings that the words of an opening ask for.
pub fn settings_of(line: &[u8]) -> Option<Settings> {
    let terminator = byte(line_words::number_at(line, 7)?)?;
    Some(Settings {
        before: line_words::number_at(line, 1)? as usize,
        after: line_words::number_at(line, 2)? as usize,
        invert: forms::flag(line_words::number_at(line, 3)?)?,
        passthru: forms::flag(line_words::number_at(line, 4)?)?,
        stop: forms::flag(line_words::number_at(line, 5)?)?,
        limit: forms::limit(line_words::word(line, 6))?,
        binary: binary_of(line_words::word(line, 8))?,
        ..Settings::plain(terminator)
    })
}

// A number that a byte holds.
fn byte(number: u64) -> Option<u8>
    ensures { result ≡ at_most number 255 }
{
    u8::try_from(number).ok()
}

// `-`, or `q` or `c` and a byte.
fn binary_of(word: &[u8]) -> Option<Binary> {
    match word {
        b"-" => Some(Binary::Ignore),
        [b'q', digits @ ..] => Some(Binary::Quit(byte(line_words::decimal(digits)?)?)),
        [b'c', digits @ ..] => Some(Binary::Convert(byte(line_words::decimal(digits)?)?)),
        _ => None,
    }
}
