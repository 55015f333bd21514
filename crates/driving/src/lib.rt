// What every program over the driver does where no line waits, and when the end has come: the one place that decides between
// the end record, an offer, a read and a refusal.
#![tactic(auto)]

ghost use Rattle.std.specs.Prelude.{◌≡◌};
ghost use Rattle.machine.specs.Program.{fed, fed_end, fed_more, fed_more_window, fed_window, stays};
ghost use Rattle.driving.specs.Door.{door_fed};

use definition::Refusal;
use machine::{Fed, Next};
use searcher::Searcher;

// An answer was refused, by the number given. By 6, unsound, no line waits: the end record comes where it is served, as it is
// after a stop; else what is at hand is offered, and where nothing is, more is wanted. Any other number is told. Window and piece
// are lent for one call, as `offer` takes them.
pub fn feed(s: Searcher, refusal: u64, window: &mut [u8], piece: &[u8]) -> Fed<Searcher>
    ensures value { result ≡ door_fed (fed s.session refusal window.old piece.now) }
    ensures window_after { window.new ≡ fed_window s.session refusal window.old piece.now }
{
    if refusal != u64::from(Refusal::Unsound) {
        return unchanged(s, Next::Refuses(refusal));
    }
    match s.end_record() {
        Ok(end) => unchanged(s, Next::Ends(end)),
        Err(_) => feed_on(s, window, piece),
    }
}

fn feed_on(s: Searcher, window: &mut [u8], piece: &[u8]) -> Fed<Searcher>
    ensures value { result ≡ door_fed (fed_more s.session window.old piece.now) }
    ensures window_after { window.new ≡ fed_more_window s.session window.old piece.now }
{
    if piece.is_empty() {
        return unchanged(s, Next::Wants);
    }
    match s.offer(window, piece) {
        Ok(offered) => Fed {
            session: offered.next,
            taken: offered.taken,
            next: Next::Goes,
        },
        Err(not_taken) => unchanged(s, Next::Refuses(u64::from(not_taken.refusal))),
    }
}

// The end of the input has come.
pub fn tell_end(s: Searcher) -> Fed<Searcher>
    ensures { result ≡ door_fed (fed_end s.session) }
{
    match s.tell_end() {
        Ok(told) => Fed {
            session: told,
            taken: 0,
            next: Next::Goes,
        },
        Err(not_told) => unchanged(s, Next::Refuses(u64::from(not_told.refusal))),
    }
}

fn unchanged(s: Searcher, next: Next) -> Fed<Searcher>
    ensures { result ≡ door_fed (stays s.session next) }
{
    Fed {
        session: s,
        taken: 0,
        next,
    }
}
