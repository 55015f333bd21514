// Opening a search: a fresh session, or, refused, the closed one.
#![tactic(auto)]

ghost use Rattle.std.specs.Prelude.{◌≡◌};
ghost use Rattle.session.specs.Calls.{fresh, open_result};
ghost use Rattle.session.specs.Sound.{closed, places_start};

use definition::{Refusal, Settings};
use session::{Input, Places, Refused, Session};

// Opens a search with a window of a length. Refused, it hands back the closed session.
#[tactic(auto, unfolding(session::specs::Calls::open_result, session::specs::Calls::opening))]
pub fn open(settings: Settings, window: usize) -> Result<Session, Refused<Session>>
    ensures { result ≡ open_result settings window }
{
    if !agreeing::are_allowed(settings) {
        return Err(refused(Refusal::BadSettings));
    }
    if (window == 0) | (definition::MAX_WINDOW < window) {
        return Err(refused(Refusal::BadWindow));
    }
    Ok(fresh_session(settings, window))
}

fn refused(refusal: Refusal) -> Refused<Session>
    ensures { result ≡ record { refusal = refusal; next = closed } }
{
    Refused {
        refusal,
        next: closed_session(),
    }
}

// The session that is refused as unsound at every call: no opening has a window of 0 bytes.
pub fn closed_session() -> Session
    ensures { result ≡ closed }
{
    fresh_session(Settings::plain(0), 0)
}

// All at the start.
fn fresh_session(settings: Settings, window: usize) -> Session
    ensures { result ≡ fresh settings window }
{
    Session {
        walk: stepping::start(settings),
        places: places_start(window),
    }
}

fn places_start(window: usize) -> Places
    ensures { result ≡ places_start window }
{
    Places {
        window,
        floor: 0,
        next: 0,
        end: 0,
        input: Input::Open,
        replaced: None,
    }
}
