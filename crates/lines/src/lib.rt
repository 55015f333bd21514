// What lines.rs does: where a byte stands first, where the next line ends, where the last lines start, how many there are,
// and a line without its terminator. Each over lent bytes, for any terminator byte.
#![tactic(auto)]

ghost use Rattle.std.specs.Prelude.{◌≡◌, length};
ghost use Rattle.definition.specs.Text.{first_length, first_place, lines};
ghost use Rattle.lines.specs.Lines.{found, last_start, without_terminator};

// The first place of a byte.
#[tactic(auto, unfolding(crate::specs::Lines::found))]
pub fn find(s: &[u8], byte: u8) -> Option<usize>
    ensures { result ≡ found byte s.now }
{
    s.iter().position(|x| *x == byte)
}

// The first place of a byte; the length where there is none.
pub fn first_place(piece: &[u8], byte: u8) -> usize
    ensures { result ≡ first_place byte piece.now }
{
    find(piece, byte).unwrap_or(piece.len())
}

// The length of the first line, its terminator included. A match: with map_or, lines of 20 bytes take a fifth longer.
pub fn step(s: &[u8], terminator: u8) -> usize
    ensures { result ≡ first_length terminator s.now }
{
    match find(s, terminator) {
        Some(i) => i + 1,
        None => s.len(),
    }
}

// Where the last n lines start.
pub fn preceding(s: &[u8], terminator: u8, n: usize) -> usize
    ensures { result ≡ last_start n terminator s.now }
{
    let mut start = s.len();
    for _ in 0..n {
        if start == 0 {
            return 0;
        }
        start = last_line(&s[..start], terminator);
    }
    start
}

// Where the last line starts. Its last byte is its own, whether it is a terminator or not.
fn last_line(s: &[u8], terminator: u8) -> usize
    ensures { result ≡ last_start 1 terminator s.now }
{
    for i in (1..s.len()).rev() {
        if s[i - 1] == terminator {
            return i;
        }
    }
    0
}

// How many lines there are.
pub fn count(s: &[u8], terminator: u8) -> usize
    ensures { result ≡ length (lines terminator s.now) }
{
    let mut n = 0;
    let mut rest = s;
    while !rest.is_empty() {
        rest = &rest[step(rest, terminator)..];
        n += 1;
    }
    n
}

// The line without its terminator, if it has one: that part of it, from its front.
pub fn without_terminator(line: &[u8], terminator: u8) -> &[u8]
    ensures result_value { result.now ≡ without_terminator terminator line.now }
    ensures ref_ptr_value { result.ref_ptr ≡ line.entry.ref_ptr }
{
    match line {
        [front @ .., last] if *last == terminator => front,
        _ => line,
    }
}
