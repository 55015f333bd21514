// The commands. The program lends the first W bytes of a room of 65,537 bytes, all 0 at the start, as window, and the
// first N numbers of a table of 4,016, all 9 at the start. R is a refusal's number.
//
//   open BEFORE AFTER INVERT PASS STOP LIMIT TERM BINARY W   open R
//       flags 0 or 1, LIMIT a number or `-`, TERM 0 to 255, BINARY `-`, `qN` or `cN` with N 0 to 255; W is passed on as
//       given, and sets the length lent from here on, the whole room where it is larger
//   offer HEX       offer R TAKEN          two lower-case digits a byte, `-` for none, at most 4,096 bytes
//   waiting         waiting S              1 a line waits, 0 none, 6 refused
//   line            line HEX
//   answer YES N    answer R COUNT, then KIND,OFFSET,LENGTH,NUMBER for each row
//   table FROM TO   table, then those numbers
//   end             end R
//   record          record R BYTES LINES MATCHES CAUSE FLAG OFFSET
//   window          window HEX             the bytes lent
//   poke AT HEX     poke                   the caller overwrites bytes of the room
//   lend W          lend                   another length from here on
//
// Words are separated by one space. Numbers are decimal without leading zeros and below 2 to the 64; those that say what
// is lent or reached (N, FROM, TO, AT, W of lend) lie within the table or the room.
//
// A command is done in two parts: its call, which may change the search, and what is said of it. A line of another form
// ends the script, and whoever counts the lines says that it is bad.
use output::Output;
use replay_calls::Script;
use replay_words::Memory;

// Does the command of a line and collects what is said of it; a line that is no command gives nothing.
pub fn act(script: &mut Script, line: &[u8], memory: &mut Memory, out: &mut Output) -> Option<()> {
    let command = replay_words::command_of(line, &mut memory.bytes)?;
    let Memory { room, table, bytes } = memory;
    let called = replay_calls::call(*script, command, room, table, bytes);
    *script = called.script;
    replay_answers::say(called, command, room, table, bytes, out);
    Some(())
}
