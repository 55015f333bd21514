// Offering a piece: first what is to be done, in the order of the refusals, then the window's bytes and the session.
#![tactic(auto)]

ghost use Rattle.std.specs.Prelude.{◌≡◌, ◌≤◌, false, not, ◌&&◌, length, if◌then◌else◌, ◌==◌};
ghost use Rattle.session.specs.declared.Input.TheVariants.{Open, QuitFound};
ghost use Rattle.session.specs.Calls.{idle, offer_result, offered_window, stored, stored_window};
ghost use Rattle.session.specs.Held.{waits};
ghost use Rattle.offering.specs.Plan.{Sounded, Storing, idle_at, planned};

use definition::Refusal;
use session::{Input, Offered, Places, Refused, Session};

// What a served offer moves and takes: the window's bytes from a place on go to its front, so many bytes of the piece come in
// behind them, and a Quit byte comes next or not: a flag, since bytes may come in either way.
#[derive(Clone, Copy)]
pub struct Plan {
    pub from: usize,
    pub taken: usize,
    pub quit: bool,
}

// A session is a value, the window and the piece are lent for one call, and each of the three is asked of alone below: a struct
// would be made for the call and taken apart in it.
pub fn offer(
    s: Session,
    window: &mut [u8],
    piece: &[u8],
) -> Result<Offered<Session>, Refused<Session>>
    ensures value { result ≡ offer_result s window.old piece.now }
    ensures window_after { window.new ≡ offered_window s window.old piece.now }
{
    match decide(s, &window[..], piece) {
        Ok(Some(plan)) => {
            let next = store(s, window, piece, plan);
            Ok(Offered {
                taken: plan.taken,
                next,
            })
        }
        Ok(None) => Ok(Offered { taken: 0, next: s }),
        Err(refusal) => Err(Refused { refusal, next: s }),
    }
}

// What is to be stored; nothing where the piece is idle.
fn decide(s: Session, window: &[u8], piece: &[u8]) -> Result<Option<Plan>, Refusal>
    ensures { result ≡ planned s window.now piece.now }
{
    if !held::is_sound(s, window.len()) {
        return Err(Refusal::Unsound);
    }
    if is_idle(s, piece.len()) {
        return Ok(None);
    }
    decide_from(s, window, piece, held::kept_from(s, window))
}

// An empty piece, or one after the end or a stop.
fn is_idle(s: Session, piece: usize) -> bool
    ensures { result ≡ idle_at s piece }
{
    let walk = s.walk;
    let p = s.places;
    let input = p.input;
    let going = walk.going;
    (piece == 0) | !held::is_open(input) | !ahead::is_on(going)
}

// A piece with bytes while the input is open: what of it comes in behind the part that is held from a place on.
fn decide_from(
    s: Session,
    window: &[u8],
    piece: &[u8],
    from: usize,
) -> Result<Option<Plan>, Refusal>
    requires sounded { Sounded s window.now from }
    requires piece_value { idle s piece.now ≡ false }
    ensures { result ≡ planned s window.now piece.now }
{
    let c = s.walk.settings;
    let binary = c.binary;
    let free = s.places.window - (s.places.end - from);
    let left = definition::MAX_INPUT - held::taken_bytes(s);
    let reach = reaching::reaches(binary, piece, free.min(left as usize));
    if reach.quit & (reach.taken == 0) {
        return Ok(Some(Plan {
            from,
            taken: 0,
            quit: true,
        }));
    }
    if left == 0 {
        return Err(Refusal::SizeTaken);
    }
    if is_stuck(s, window, free) {
        return Err(Refusal::WindowFull);
    }
    Ok(Some(Plan {
        from,
        taken: reach.taken,
        quit: reach.quit,
    }))
}

// No room is left and no line waits. The window is looked at only where there is no room.
fn is_stuck(s: Session, window: &[u8], free: usize) -> bool
    requires { (s.places.next ≤ s.places.end) × (s.places.end ≤ length window.now) }
    ensures { result ≡ (not (waits s window.now) && free == 0) }
{
    if 0 < free {
        return false;
    }
    held::next_line(s, window).is_none()
}

// The held part moves to the front, and the first n bytes of the piece come in behind it.
fn store(s: Session, window: &mut [u8], piece: &[u8], plan: Plan) -> Session
    requires { Storing s window.old piece.now plan.from plan.taken }
    ensures value { result ≡ stored s window.old piece.now plan.taken plan.quit }
    ensures window_after { window.new ≡ stored_window s window.old piece.now plan.taken }
{
    let walk = s.walk;
    let c = walk.settings;
    let binary = c.binary;
    let p = s.places;
    let place = p.replaced;
    let end = p.end;
    let from = plan.from;
    let part = &piece[..plan.taken];
    line_buffer::roll(window, from, end);
    line_buffer::take_in(window, end - from, part, binary, c.terminator);
    let taken = held::taken_bytes(s);
    let replaced = reaching::first_replaced(place, binary, c.terminator, taken, part);
    let input = input_after(plan.quit);
    let places = Places {
        window: p.window,
        floor: 0,
        next: p.next - from,
        end: end - from + plan.taken,
        input: input,
        replaced: replaced,
    };
    Session {
        walk: walk,
        places: places,
    }
}

fn input_after(quit: bool) -> Input
    ensures { result ≡ (if quit then QuitFound else Open) }
{
    if quit { Input::QuitFound } else { Input::Open }
}
