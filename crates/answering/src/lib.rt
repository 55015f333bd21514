// Answering the waiting line, in a window: the line and the bytes since the last line with a row are lent to the core, and
// the places move on.
#![tactic(auto)]

ghost use Rattle.std.specs.Prelude.{◌≡◌, ◌+◌, ◌≤◌};
ghost use Rattle.session.specs.Calls.{answer_result, answered_table, places_next};
ghost use Rattle.answering.specs.Waiting.{waiting_line};

use definition::Refusal;
use session::{Answered, Places, Refused, Session};

#[tactic(auto, using(crate::proofs::Laws::places_fit, crate::proofs::Laws::walk_fits, crate::proofs::Laws::step_fits))]
pub fn answer(
    s: Session,
    window: &[u8],
    table: &mut [u64],
    hit: bool,
) -> Result<Answered<Session>, Refused<Session>>
    ensures value { result ≡ answer_result s window.now table.old hit }
    ensures table_after { table.new ≡ answered_table s window.now table.old hit }
{
    let Some(length) = waiting_line(s, window) else {
        return Err(Refused {
            refusal: Refusal::Unsound,
            next: s,
        });
    };
    let p = s.places;
    match giving::answer(s.walk, &window[p.floor..p.next], table, hit, length) {
        Ok(given) => {
            let walk = stepping::step(s.walk, length, given.fate);
            let places = places_next(p, length, stepping::gets_row(given.fate));
            Ok(Answered {
                rows: given.rows,
                next: Session { walk, places },
            })
        }
        Err(refusal) => Err(Refused { refusal, next: s }),
    }
}

// The line that waits, if the session is sound.
#[tactic(auto, using(crate::proofs::Laws::sound_fits), unfolding(crate::specs::Waiting::waiting_line))]
fn waiting_line(s: Session, window: &[u8]) -> Option<usize>
    ensures { result ≡ waiting_line s window.now }
{
    if held::is_sound(s, window.len()) {
        held::next_line(s, window)
    } else {
        None
    }
}

// The places after a line, with a row of its own or without.
#[tactic(auto, unfolding(session::specs::Calls::places_next))]
fn places_next(p: Places, length: usize, row: bool) -> Places
    requires { p.next + length ≤ p.end }
    ensures { result ≡ places_next p length row }
{
    let next = p.next + length;
    let floor = if row { next } else { p.floor };
    Places { floor, next, ..p }
}
