// The programs' standard input and output. What a call of read or write did is std's count, or a failure told apart from a signal.
#![tactic(auto)]

ghost use Rattle.std.specs.Prelude.{◌≡◌, ◌≤◌, length};
ghost use Rattle.output.specs.Output.{collected, seen};
ghost use Rattle.streams.specs.Moves.{MovedWithin, Takes, WritesFront, errno_of, failed_read, left_of, moved_in, unmoved_by};

use output::Output;
use std::io::{Cursor, Error, ErrorKind, Read, Write};

// The system's numbers of two failures: a signal came first, and a failure that has no number.
const EINTR: i32 = 4;

const EIO: i32 = 5;

// What a program reads from, what it writes to, and where it tells why a call failed.
#[derive(Drop)]
pub struct Streams<I, O, E> {
    pub input: I,
    pub output: O,
    pub errors: E,
}

// Why a call of read or write moved nothing: a signal came first, or it failed, with this errno.
#[derive(Clone, Copy, PartialEq, Eq)]
pub enum Failure {
    Interrupted,
    Errno(i32),
}

impl From<Error> for Failure {
    ghost from_gives = { λ e failure. failure ≡ unmoved_by (errno_of e) };

    fn from(e: Error) -> Failure {
        let error = errno_of(e);
        if error == EINTR {
            return Failure::Interrupted;
        }
        Failure::Errno(error)
    }
}

// The errno of an error. One that is not of the system's has a kind alone.
fn errno_of(e: Error) -> i32
    ensures { result ≡ errno_of e }
{
    match e.raw_os_error() {
        Some(code) => code,
        None => match e.kind() {
            ErrorKind::Interrupted => EINTR,
            _ => EIO,
        },
    }
}

// Reads once. Nothing moves at the end of the input, or into an empty buffer.
pub fn read<I: Read>(from: &mut I, buffer: &mut [u8]) -> Result<usize, Failure>
    ensures within { MovedWithin result buffer.new }
    ensures bytes { Takes (I.remaining from.old) (I.remaining from.new) result buffer.new }
{
    let got = from.read(buffer);
    moved_in(got, buffer.len())
}

// What a call did that was lent so many bytes, by what std gives of it. It moves no more than it was lent.
fn moved_in(got: std::io::Result<usize>, most: usize) -> Result<usize, Failure>
    ensures { result ≡ moved_in got most }
{
    Ok(got?.min(most))
}

// Writes a text, going on after a signal and where only a part was written; whether all of it is written. A bool, since why
// it fails is told here: a caller has only to stop. std's `write_all` does not say what it wrote before it failed, as `WritesFront`
// does. Turns are a bound for the proof: nothing lasts so long.
pub fn write<O: Write, E: Write>(to: &mut O, errors: &mut E, text: &[u8]) -> bool
    ensures { WritesFront (O.contents to.old) (O.contents to.new) text.now result }
{
    let mut left = text.len();
    for _ in 0..u64::MAX {
        if left == 0 {
            break;
        }
        let wrote = moved_in(to.write(&text[text.len() - left..]), left);
        match left_of(wrote, left) {
            Ok(n) => left = n,
            Err(reason) => {
                tell_reason(errors, b"failed write, errno ", reason);
                return false;
            }
        }
    }
    left == 0
}

// How many bytes are left of so many after a write of them; or the errno that is told where they cannot be written, which is 0
// where none was moved.
fn left_of(wrote: Result<usize, Failure>, size: usize) -> Result<usize, i32>
    ensures { result ≡ left_of wrote size }
{
    match wrote {
        Ok(0) => Err(0),
        Ok(n) => Ok(size.saturating_sub(n)),
        Err(Failure::Interrupted) => Ok(size),
        Err(Failure::Errno(reason)) => Err(reason),
    }
}

// Says that a read failed: the reason among the errors, and a line in the output.
pub fn tell_failed_read<E: Write>(errors: &mut E, out: &mut Output, reason: i32)
    ensures same_reference { out.new.room.ghost_name ≡ out.old.room.ghost_name }
    ensures told { seen out.new ≡ collected (seen out.old) failed_read }
{
    tell_reason(errors, b"failed read, errno ", reason);
    out.put(b"failed read\n");
}

// A line among the errors: what failed, errno's number, and the system's text for it. Where that fails nothing can be told.
// What failed and the number are one write: `write!` to `errors` itself would make a call of each.
fn tell_reason<E: Write>(errors: &mut E, what: &[u8], reason: i32) {
    let mut line = [0u8; 40];
    let mut told = Output::new(&mut line);
    told.put(what);
    told.put_number(u64::try_from(reason).unwrap_or(0));
    let _ = errors.write_all(told.written());
    let _ = errors.write_all(b": ");
    tell_text(errors, reason);
    let _ = errors.write_all(b"\n");
}

// The system's text for an errno. std puts ` (os error ` and the number behind it, which the line has told already.
fn tell_text<E: Write>(errors: &mut E, reason: i32) {
    let mut room = Cursor::new([0u8; 256]);
    let _ = write!(room, "{}", Error::from_raw_os_error(reason));
    let text = room.into_inner();
    let size = text_end(&text);
    let _ = errors.write_all(&text[..size]);
}

// Where the text ends that has a space and a parenthesis behind it.
fn text_end(text: &[u8]) -> usize
    ensures { result ≤ length text.now }
{
    text.iter()
        .position(|x| *x == b'(')
        .map_or(0, |at| at.saturating_sub(1))
}
