// Asking for the waiting line: whether there is one, and the part of the window that it is.
#![tactic(auto, unfolding(session::specs::Calls::shown_from, session::specs::Calls::shown_line, session::specs::Calls::waiting, session::specs::Held::unanswered, session::specs::Held::waits, session::specs::Sound::agrees, session::specs::Sound::places_agree, session::specs::Sound::places_tests, session::specs::Sound::sound, driver_core::specs::Walk::line_ahead))]

ghost use Rattle.std.specs.Prelude.{◌≡◌, length};
ghost use Rattle.session.specs.Calls.{shown_from, shown_line, waiting};
ghost use Rattle.session.specs.Place.{place_in};

use definition::Refusal;
use session::Session;

// Whether a line waits.
pub fn waiting(s: Session, window: &[u8]) -> Result<bool, Refusal>
    ensures { result ≡ waiting s window.now }
{
    if !held::is_sound(s, window.len()) {
        return Err(Refusal::Unsound);
    }
    Ok(held::next_line(s, window).is_some())
}

// The waiting line, without its terminator, as a part of the window itself; empty where none waits.
pub fn line(s: Session, window: &[u8]) -> &[u8]
    ensures result_value { result.now ≡ shown_line s window.now }
    ensures ref_ptr_value { result.ref_ptr ≡ place_in window.entry.ref_ptr (shown_from s (length window.now)) }
{
    if !held::is_sound(s, window.len()) {
        return &window[..0];
    }
    let p = s.places;
    ahead::line(s.walk, held::is_open(p.input), &window[p.next..p.end])
}
