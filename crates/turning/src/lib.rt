// The lines of the text: each is shown, matched, answered, and its rows printed; where none waits the driver is fed.
#![tactic(auto)]

ghost use Rattle.std.specs.Prelude.{◌≡◌};
ghost use Rattle.search_machine.specs.declared.Stage.TheVariants.{Text};
ghost use Rattle.search_machine.specs.Standing.{Ready, Turned, seen};

use machine::Next;
use output::Output;
use search_machine::Search;

// The most that one turn prints: a row for each line before, a break and the match.
const TURN: usize = printing::LONGEST_ROW * (definition::MAX_CONTEXT + 2);

// Turns, until a read is wanted, all is told, or the output might have no room for another. The one call each of line, answer
// and feed is here, so that they are compiled into the loop. Turns are a bound for the proof: nothing lasts so long.
pub fn turns(
    s: Search,
    window: &mut [u8],
    table: &mut [u64],
    literal: &[u8],
    input: &mut [u8],
    out: &mut [u8],
) -> Search
    requires { (s.stage ≡ Text) × Ready s window.old table.old literal.now input.old out.old }
    ensures { Turned (seen s window.old literal.now input.old) result window.new literal.now input.new out.new }
{
    let size = s.size;
    let to = s.to;
    let mut searcher = s.searcher;
    let mut at = s.from;
    let mut told = Output {
        room: out,
        pending: s.pending,
    };
    for _ in 0..u64::MAX {
        if told.room.len() - told.pending.length < TURN {
            break;
        }
        let hit = literal::contains_by(searcher.line(window), &literal[..size], s.pair);
        match searcher.answer(window, table, hit) {
            Ok(answered) => {
                searcher = answered.next;
                printing::rows(&mut told, table, answered.rows);
            }
            Err(refused) => {
                let refusal = u64::from(refused.refusal);
                let fed = driving::feed(searcher, refusal, window, &input[at..to]);
                searcher = fed.session;
                at += fed.taken;
                match fed.next {
                    Next::Goes => {}
                    Next::Wants => {
                        let left = standing::going(s, searcher, at, told.pending);
                        return standing::wanting(left, input);
                    }
                    Next::Refuses(k) => {
                        printing::refusal(&mut told, k);
                        return standing::over(s, told.pending);
                    }
                    Next::Ends(end) => {
                        printing::end(&mut told, end);
                        return standing::over(s, told.pending);
                    }
                }
            }
        }
    }
    standing::going(s, searcher, at, told.pending)
}
