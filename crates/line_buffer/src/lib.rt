// What line_buffer.rs does with its buffer, over a lent window: the held part moves to the front, and a piece is taken in
// behind it, converted where that is set.
#![tactic(auto)]

ghost use Rattle.std.specs.Prelude.{◌≡◌, ◌+◌, ◌≤◌, ◌++◌, length, drop};
ghost use Rattle.definition.specs.Text.{put_at, replaced};
ghost use Rattle.line_buffer.specs.Buffer.{converted, rolled};

use definition::Binary;

// The part between two places moves to the window's front; what it does not cover there stays.
pub fn roll(window: &mut [u8], from: usize, to: usize)
    requires { (from ≤ to) × (to ≤ length window.old) }
    ensures { window.new ≡ rolled from to window.old }
{
    if from == 0 {
        return;
    }
    window.copy_within(from..to, 0);
}

// A piece goes into the window from the held end on, converted if set; places beyond it stay.
pub fn take_in(window: &mut [u8], end: usize, piece: &[u8], binary: Binary, terminator: u8)
    requires { end + length piece.now ≤ length window.old }
    ensures { window.new ≡ put_at end (converted binary terminator piece.now) window.old }
{
    // Copying is apart from the converting loop, since it has nothing to test.
    match binary {
        Binary::Ignore | Binary::Quit(_) => {
            window[end..end + piece.len()].copy_from_slice(piece);
        }
        Binary::Convert(byte) => replace_bytes(&mut window[end..], piece, byte, terminator),
    }
}

// Copies a piece with each byte of one value replaced by another.
fn replace_bytes(tail: &mut [u8], piece: &[u8], byte: u8, by: u8)
    requires { length piece.now ≤ length tail.old }
    ensures { tail.new ≡ replaced byte by piece.now ++ drop (length piece.now) tail.old }
{
    for (i, x) in piece.iter().enumerate() {
        tail[i] = if *x == byte { by } else { *x };
    }
}
