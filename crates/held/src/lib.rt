// The places of a session in its window: whether they agree with each other and with the walk, the line that waits there,
// and where the kept part starts.
#![tactic(auto)]

ghost use Rattle.std.specs.Prelude.{◌≡◌, ◌+◌, ◌-◌, ◌≤◌, length};
ghost use Rattle.driver_core.specs.Walk.{line_ahead};
ghost use Rattle.definition.specs.Bounds.{max_context, max_input};
ghost use Rattle.definition.specs.Definition.{kept_lines};
ghost use Rattle.session.specs.Held.{is_open, kept_from, unanswered};
ghost use Rattle.session.specs.Sound.{agrees, places_agree, sound, taken_bytes};

use definition::Settings;
use session::{Input, Places, Session};

pub fn is_open(input: Input) -> bool
    ensures { result ≡ is_open input }
{
    input == Input::Open
}

// The places are in order; what the walk is asked with then stays at 0 or above.
#[tactic(auto, unfolding(session::specs::Sound::places_agree, session::specs::Sound::places_tests))]
fn in_order(p: Places) -> bool
    ensures { result ≡ places_agree p }
{
    (0 < p.window)
        & (p.window <= definition::MAX_WINDOW)
        & (p.floor <= p.next)
        & (p.next <= p.end)
        & (p.end <= p.window)
}

// Whether a session's numbers agree with each other.
#[tactic(auto, unfolding(session::specs::Sound::agrees, session::specs::Sound::places_agree, session::specs::Sound::places_tests))]
pub fn agree(s: Session) -> bool
    ensures { result ≡ agrees s }
{
    let p = s.places;
    in_order(p) && agreeing::agree(s.walk, p.next - p.floor, p.end - p.next)
}

// The same, and that the window lent has the length given at opening.
#[tactic(auto, unfolding(session::specs::Sound::sound))]
pub fn is_sound(s: Session, window: usize) -> bool
    ensures { result ≡ sound s window }
{
    agree(s) & (window == s.places.window)
}

// The bytes taken: gone through, and held unanswered. That the places are in order is asked here and below and is no invariant of
// `Session`: a caller may make up any numbers, which `agree` tells and every call refuses.
#[tactic(auto, unfolding(session::specs::Sound::taken_bytes))]
pub fn taken_bytes(s: Session) -> u64
    requires { (s.places.next ≤ s.places.end) × (s.walk.bytes + (s.places.end - s.places.next) ≤ max_input) }
    ensures { result ≡ taken_bytes s }
{
    s.walk.bytes + ((s.places.end - s.places.next) as u64)
}

// The line that waits, read from the window as it stands.
#[tactic(auto, unfolding(session::specs::Held::unanswered))]
pub fn next_line(s: Session, window: &[u8]) -> Option<usize>
    requires { (s.places.next ≤ s.places.end) × (s.places.end ≤ length window.now) }
    ensures { result ≡ line_ahead s.walk (is_open s.places.input) (unanswered s window.now) }
{
    let p = s.places;
    ahead::next_line(s.walk, is_open(p.input), &window[p.next..p.end])
}

// How many lines before the waiting one are kept.
#[tactic(auto, unfolding(definition::specs::Definition::kept_lines))]
fn kept_lines(c: Settings) -> usize
    requires { c.before ≤ max_context }
    ensures { result ≡ kept_lines c }
{
    if agreeing::has_context(c) {
        c.before + 1
    } else {
        0
    }
}

// Where the kept part starts, found backwards from the first byte not answered.
#[tactic(auto, using(lines::proofs::Laws::last_le, session::proofs::Parts::part_length, crate::proofs::Laws::kept_back))]
pub fn kept_from(s: Session, window: &[u8]) -> usize
    requires { (s.places.floor ≤ s.places.next) × (s.places.next ≤ length window.now) × (s.walk.settings.before ≤ max_context) }
    ensures { result ≡ kept_from s window.now }
{
    let c = s.walk.settings;
    let p = s.places;
    p.floor + lines::preceding(&window[p.floor..p.next], c.terminator, kept_lines(c))
}
