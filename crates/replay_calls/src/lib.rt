// The calls that `replay`'s commands make, and the search that they leave. What is said of a call is in `replay_answers`; the
// commands are listed in `replaying`.
#![tactic(auto)]

ghost use Rattle.replay_calls.specs.Gave.{Gave};

use definition::Settings;
use replay_words::{Command, ROOM};
use searcher::Searcher;
use session::Refused;

// How the script stands.
#[derive(Clone, Copy)]
pub struct Script {
    pub searcher: Searcher,
    // how many bytes of the room are lent
    pub lent: usize,
}

// What a call gave; a command that makes none leaves the search as it was. Refusal and count stand side by side, since any two can
// be said; `call` gives one of them.
#[derive(Clone, Copy)]
pub struct Called {
    pub script: Script,
    // 0 of a call that was served
    pub refusal: u64,
    // bytes taken or rows written, 0 of a call that does neither
    pub count: usize,
}

pub fn start() -> Script {
    Script {
        searcher: Searcher::closed(),
        lent: 0,
    }
}

// The call that a command makes: what is said of it is a count or a refusal, never both.
pub fn call(
    script: Script,
    command: Command,
    room: &mut [u8],
    table: &mut [u64],
    bytes: &[u8],
) -> Called
    ensures { Gave result }
{
    match command {
        Command::Open(settings, window) => open(settings, window),
        Command::Offer(count) => offer(script, room, bytes, count),
        Command::Answer(hit, size) => answer(script, room, table, hit, size),
        Command::End => end(script),
        Command::Lend(length) => served(script.searcher, length, 0),
        _ => served(script.searcher, script.lent, 0),
    }
}

fn served(searcher: Searcher, lent: usize, count: usize) -> Called
    ensures { Gave result }
{
    Called {
        script: Script { searcher, lent },
        refusal: 0,
        count,
    }
}

fn refused(refused: Refused<Searcher>, lent: usize) -> Called
    ensures { Gave result }
{
    Called {
        script: Script {
            searcher: refused.next,
            lent,
        },
        refusal: u64::from(refused.refusal),
        count: 0,
    }
}

fn open(settings: Settings, window: usize) -> Called
    ensures { Gave result }
{
    let lent = window.min(ROOM);
    match Searcher::open(settings, window) {
        Ok(searcher) => served(searcher, lent, 0),
        Err(reason) => refused(reason, lent),
    }
}

fn offer(script: Script, room: &mut [u8], bytes: &[u8], count: usize) -> Called
    ensures { Gave result }
{
    let window = script.lent.min(room.len());
    let size = count.min(bytes.len());
    match script.searcher.offer(&mut room[..window], &bytes[..size]) {
        Ok(offered) => served(offered.next, script.lent, offered.taken),
        Err(reason) => refused(reason, script.lent),
    }
}

fn answer(script: Script, room: &[u8], table: &mut [u64], hit: bool, size: usize) -> Called
    ensures { Gave result }
{
    let window = script.lent.min(room.len());
    let lent = size.min(table.len());
    match script
        .searcher
        .answer(&room[..window], &mut table[..lent], hit)
    {
        Ok(answered) => served(answered.next, script.lent, answered.rows),
        Err(reason) => refused(reason, script.lent),
    }
}

fn end(script: Script) -> Called
    ensures { Gave result }
{
    match script.searcher.tell_end() {
        Ok(searcher) => served(searcher, script.lent, 0),
        Err(reason) => refused(reason, script.lent),
    }
}

#[cfg(test)]
mod tests {
    use super::{call, start};
    use definition::{MAX_WINDOW, Settings};
    use replay_words::Command;

    // A script, with the refusal and the count that each of its calls says; the bytes at hand are the same at each.
    #[test]
    fn call_says_a_refusal_or_a_count(rt: HostRuntime) {
        let plain = Settings::plain(b'\n');
        let calls = [
            (Command::Offer(2), 6, 0),
            (Command::Open(plain, MAX_WINDOW + 1), 2, 0),
            (Command::Open(plain, 2), 0, 0),
            (Command::Offer(4), 0, 2),
            (Command::Answer(true, 3), 4, 0),
            (Command::Answer(true, 4), 0, 1),
            (Command::Answer(true, 4), 6, 0),
            (Command::Offer(1), 0, 1),
            (Command::Offer(1), 0, 1),
            (Command::Offer(1), 3, 0),
            (Command::Waits, 0, 0),
            (Command::End, 0, 0),
            (Command::Answer(false, 0), 0, 0),
        ];
        let mut room = [0u8; 8];
        let mut table = [0u64; 4];
        let mut script = start();
        for (command, refusal, count) in calls {
            let called = call(script, command, &mut room, &mut table, b"a\nbc");
            assert_eq!(rt; called.refusal, refusal);
            assert_eq!(rt; called.count, count);
            script = called.script;
        }
    }
}
