// The end of a search: the end of the input told, and the end record.
#![tactic(auto)]

ghost use Rattle.std.specs.Prelude.{◌≡◌};
ghost use Rattle.session.specs.Calls.{gone_through, input_told, is_quit, record_numbers, record_of, record_result, recorded_place, tell_result, told_session};
ghost use Rattle.session.specs.Sound.{Agree};

use definition::{Binary, Cause, End, Going, Refusal};
use session::{Input, Places, Refused, Session};

// Tells the end of the input. Refused, it hands back the session as it was.
#[tactic(auto, unfolding(session::specs::Calls::tell_result, session::specs::Calls::telling))]
pub fn tell_end(s: Session) -> Result<Session, Refused<Session>>
    ensures { result ≡ tell_result s }
{
    if !held::agree(s) {
        return Err(Refused {
            refusal: Refusal::Unsound,
            next: s,
        });
    }
    Ok(told_session(s))
}

#[tactic(auto, unfolding(session::specs::Calls::told_session))]
fn told_session(s: Session) -> Session
    ensures { result ≡ told_session s }
{
    let p = s.places;
    Session {
        places: Places {
            input: input_told(s.walk.going, p.input),
            ..p
        },
        ..s
    }
}

// Only an open input ends, and only before a stop.
fn input_told(going: Going, input: Input) -> Input
    ensures { result ≡ input_told going input }
{
    match (going, input) {
        (Going::On, Input::Open) => Input::Ended,
        _ => input,
    }
}

// The end record, once nothing remains.
#[tactic(auto, unfolding(session::specs::Calls::record_result, session::specs::Calls::recording, session::specs::Calls::remains))]
pub fn end_record(s: Session) -> Result<End, Refusal>
    ensures { result ≡ record_result s }
{
    if !held::agree(s) {
        return Err(Refusal::Unsound);
    }
    let p = s.places;
    if ahead::is_unfinished(s.walk, held::is_open(p.input), p.end - p.next) {
        return Err(Refusal::Unfinished);
    }
    Ok(record_of(s))
}

#[tactic(auto, unfolding(session::specs::Calls::record_of))]
fn record_of(s: Session) -> End
    requires { Agree s }
    ensures { result ≡ record_of s }
{
    let cause = ahead::cause_of(s.walk, is_quit(s.places.input));
    ahead::end_with(s.walk, u64::from(cause), recorded_place(s, cause))
}

fn is_quit(input: Input) -> bool
    ensures { result ≡ is_quit input }
{
    input == Input::QuitFound
}

// The Quit byte's place where it is the cause, or the first replaced byte under Convert, if it is gone through.
#[tactic(auto, unfolding(session::specs::Calls::recorded_place))]
fn recorded_place(s: Session, cause: Cause) -> Option<u64>
    requires { Agree s }
    ensures { result ≡ recorded_place s cause }
{
    if cause == Cause::QuitByte {
        return Some(held::taken_bytes(s));
    }
    match s.walk.settings.binary {
        Binary::Ignore | Binary::Quit(_) => None,
        Binary::Convert(_) => gone_through(s.places.replaced, s.walk.bytes),
    }
}

fn gone_through(place: Option<u64>, bytes: u64) -> Option<u64>
    ensures { result ≡ gone_through place bytes }
{
    place.filter(|p| *p < bytes)
}

// An end record as numbers, for what prints it or hands it to C: the refusal or 0, bytes, lines, matches, cause, and the
// binary offset's flag and place. "A refused end record is all zeros."
pub fn record_numbers(answer: Result<End, Refusal>) -> [u64; 7]
    ensures { result ≡ record_numbers answer }
{
    match answer {
        Ok(end) => [
            0,
            end.bytes,
            end.lines,
            end.matches,
            end.cause,
            u64::from(end.offset.is_some()),
            end.offset.unwrap_or(0),
        ],
        Err(refusal) => [u64::from(refusal), 0, 0, 0, 0, 0, 0],
    }
}
