// Bytes as hexadecimal digits, two lower-case ones a byte or `-` for none, both ways.
#![tactic(auto)]

ghost use Rattle.std.specs.Prelude.{◌≡◌, ◌≤◌, ◌<◌, length, IfSome};
ghost use Rattle.output.specs.Output.{collected, seen};
ghost use Rattle.hex_text.specs.Hex.{glyph_of, hex_text};

use output::Output;

// Collects bytes as two lower-case hexadecimal digits each, or `-` where there are none.
pub fn put(out: &mut Output, bytes: &[u8])
    ensures { seen out.new ≡ collected (seen out.old) (hex_text bytes.now) }
{
    if bytes.is_empty() {
        out.put(b"-");
        return;
    }
    if !out.has_room(2 * bytes.len()) {
        out.pending.lost = true;
        return;
    }
    for byte in bytes {
        out.put(&[glyph(*byte / 16), glyph(*byte % 16)]);
    }
}

fn glyph(digit: u8) -> u8
    requires { digit < 16 }
    ensures { result ≡ glyph_of digit }
{
    if digit < 10 {
        b'0' + digit
    } else {
        b'a' + (digit - 10)
    }
}

// Puts the bytes that a word writes, two lower-case hexadecimal digits each or `-` for none, at a buffer's front.
pub fn read(word: &[u8], bytes: &mut [u8]) -> Option<usize>
    ensures { IfSome result (λ n. n ≤ length bytes.new) }
{
    if line_words::is_dash(word) {
        return Some(0);
    }
    let (pairs, rest) = word.as_chunks::<2>();
    if pairs.is_empty() || !rest.is_empty() || bytes.len() < pairs.len() {
        return None;
    }
    for (byte, [high, low]) in bytes.iter_mut().zip(pairs) {
        *byte = 16 * digit(*high)? + digit(*low)?;
    }
    Some(pairs.len())
}

// What a hexadecimal digit stands for.
fn digit(glyph: u8) -> Option<u8>
    ensures { IfSome result (λ d. d < 16) }
{
    match glyph {
        b'0'..=b'9' => Some(glyph - b'0'),
        b'a'..=b'f' => Some(glyph - b'a' + 10),
        _ => None,
    }
}
