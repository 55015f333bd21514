// What `replay` says of a call, and of the search and the lent parts as they stand; and `poke`, which makes no call and
// overwrites bytes of the room.
#![tactic(auto)]

ghost use Rattle.std.specs.Prelude.{◌≡◌};

use output::Output;
use replay_calls::Called;
use replay_words::Command;
use searcher::Searcher;

// What is said of a call.
pub fn say(
    called: Called,
    command: Command,
    room: &mut [u8],
    table: &[u64],
    bytes: &[u8],
    out: &mut Output,
)
    ensures { out.new.room.ghost_name ≡ out.old.room.ghost_name }
{
    let searcher = called.script.searcher;
    let window = &room[..called.script.lent.min(room.len())];
    match command {
        Command::Open(_, _) => say_refusal(called.refusal, b"open", out),
        Command::Offer(_) => say_offer(called, out),
        Command::Waits => say_waiting(searcher, window, out),
        Command::Line => replay_says::said_bytes(out, b"line ", searcher.line(window)),
        Command::Answer(_, _) => say_answer(called, table, out),
        Command::Table(from, to) => say_table(table, from, to, out),
        Command::End => say_refusal(called.refusal, b"end", out),
        Command::Record => say_record(searcher, out),
        Command::Window => replay_says::said_bytes(out, b"window ", window),
        Command::Poke(at, count) => poke(room, at, bytes, count, out),
        Command::Lend(_) => out.put(b"lend\n"),
    }
}

fn say_refusal(refusal: u64, name: &[u8], out: &mut Output)
    ensures { out.new.room.ghost_name ≡ out.old.room.ghost_name }
{
    replay_says::said_numbers(out, name, &[refusal]);
}

fn say_offer(called: Called, out: &mut Output)
    ensures { out.new.room.ghost_name ≡ out.old.room.ghost_name }
{
    let taken = called.count as u64;
    replay_says::said_numbers(out, b"offer", &[called.refusal, taken]);
}

fn say_answer(called: Called, table: &[u64], out: &mut Output)
    ensures { out.new.room.ghost_name ≡ out.old.room.ghost_name }
{
    replay_says::said_rows(out, b"answer", called.refusal, table, called.count);
}

fn say_table(table: &[u64], first: usize, last: usize, out: &mut Output)
    ensures { out.new.room.ghost_name ≡ out.old.room.ghost_name }
{
    let to = last.min(table.len());
    let from = first.min(to);
    replay_says::said_numbers(out, b"table", &table[from..to]);
}

fn poke(room: &mut [u8], place: usize, bytes: &[u8], count: usize, out: &mut Output)
    ensures { out.new.room.ghost_name ≡ out.old.room.ghost_name }
{
    let at = place.min(room.len());
    let size = count.min(bytes.len()).min(room.len() - at);
    room[at..at + size].copy_from_slice(&bytes[..size]);
    out.put(b"poke\n");
}

fn say_waiting(searcher: Searcher, window: &[u8], out: &mut Output)
    ensures { out.new.room.ghost_name ≡ out.old.room.ghost_name }
{
    let waits = match searcher.waiting(window) {
        Ok(waits) => u64::from(waits),
        Err(refusal) => u64::from(refusal),
    };
    replay_says::said_numbers(out, b"waiting", &[waits]);
}

fn say_record(searcher: Searcher, out: &mut Output)
    ensures { out.new.room.ghost_name ≡ out.old.room.ghost_name }
{
    let numbers = ending::record_numbers(searcher.end_record());
    replay_says::said_numbers(out, b"record", &numbers);
}
