// The public door: a searcher is a small value that each call takes and hands back. It is opened, offered pieces, asked
// for the waiting line, answered, told of the end, and asked for the end record. Each call serves any arguments whatever.
#![tactic(auto)]

ghost use Rattle.std.specs.Prelude.{◌≡◌};
ghost use Rattle.searcher.specs.Door.{door_refused};
ghost use Rattle.searcher.specs.Outcomes.{Answers, Closes, Offers, Opens, Records, Shows, TellsEnd, Waits};

use definition::{End, Refusal, Settings};
use session::{Answered, Offered, Refused, Session};

#[derive(Clone, Copy)]
pub struct Searcher {
    pub session: Session,
}

impl Searcher {
    // The searcher that answers 6 to everything.
    pub fn closed() -> Searcher
        ensures { Closes result }
    {
        Searcher {
            session: opening::closed_session(),
        }
    }

    // Opens a search with a window of a length; refused it hands back the closed searcher.
    pub fn open(settings: Settings, window: usize) -> Result<Searcher, Refused<Searcher>>
        ensures { Opens settings window result }
    {
        let session = opening::open(settings, window).map_err(handed_back)?;
        Ok(Searcher { session })
    }

    // Takes in what of a piece has room.
    pub fn offer(
        self,
        window: &mut [u8],
        piece: &[u8],
    ) -> Result<Offered<Searcher>, Refused<Searcher>>
        ensures { Offers self window.old piece.now result window.new }
    {
        let offered = offering::offer(self.session, window, piece).map_err(handed_back)?;
        Ok(Offered {
            taken: offered.taken,
            next: Searcher {
                session: offered.next,
            },
        })
    }

    // Tells whether a line waits.
    pub fn waiting(self, window: &[u8]) -> Result<bool, Refusal>
        ensures { Waits self window.now result }
    {
        asking::waiting(self.session, window)
    }

    // Shows the waiting line, without its terminator, as a part of the window itself; empty where none waits.
    pub fn line(self, window: &[u8]) -> &[u8]
        ensures { Shows self window.now window.entry.ref_ptr result.now result.ref_ptr }
    {
        asking::line(self.session, window)
    }

    // Answers the waiting line: its rows go into the table from its front.
    pub fn answer(
        self,
        window: &[u8],
        table: &mut [u64],
        hit: bool,
    ) -> Result<Answered<Searcher>, Refused<Searcher>>
        ensures { Answers self window.now table.old hit result table.new }
    {
        let answered = answering::answer(self.session, window, table, hit).map_err(handed_back)?;
        Ok(Answered {
            rows: answered.rows,
            next: Searcher {
                session: answered.next,
            },
        })
    }

    // Tells the end of the input.
    pub fn tell_end(self) -> Result<Searcher, Refused<Searcher>>
        ensures { TellsEnd self result }
    {
        let session = ending::tell_end(self.session).map_err(handed_back)?;
        Ok(Searcher { session })
    }

    // The end record, once nothing remains.
    pub fn end_record(self) -> Result<End, Refusal>
        ensures { Records self result }
    {
        ending::end_record(self.session)
    }
}

// A refusal, with the session as a searcher.
fn handed_back(refused: Refused<Session>) -> Refused<Searcher>
    ensures { result ≡ door_refused refused }
{
    Refused {
        refusal: refused.refusal,
        next: Searcher {
            session: refused.next,
        },
    }
}
