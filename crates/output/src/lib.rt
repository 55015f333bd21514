// What a program collects before it writes: text and numbers in a lent buffer, which it writes before it waits for more input.
#![tactic(auto)]

ghost use Rattle.std.specs.Prelude.{◌≡◌, ◌+◌, ◌≤◌, leb, length};
ghost use Rattle.output.specs.Output.{added, collected, decimal, none, over, seen, text_of};

// How much is collected: so many bytes at the buffer's front, and whether some text had no room there: a flag, since what had room
// is written all the same.
#[derive(Clone, Copy)]
pub struct Pending {
    pub length: usize,
    pub lost: bool,
}

pub fn nothing_pending() -> Pending
    ensures { result ≡ none }
{
    Pending {
        length: 0,
        lost: false,
    }
}

// A lent buffer and how much is collected at its front, which may be told wrong: a text then has no room.
#[derive(Drop)]
pub struct Output<'a> {
    pub room: &'a mut [u8],
    pub pending: Pending,
}

impl<'a> Output<'a> {
    // Nothing is collected yet.
    pub fn new(room: &'a mut [u8]) -> Output<'a>
        ensures { seen result ≡ over room.entry.ghost_name room.old none }
    {
        Output {
            room,
            pending: nothing_pending(),
        }
    }

    // The text that is collected.
    pub fn written(&self) -> &[u8]
        ensures { result.now ≡ text_of (seen self.now) }
    {
        &self.room[..self.pending.length.min(self.room.len())]
    }

    // Collects anew, from the buffer's front.
    pub fn clear(&mut self)
        ensures { seen self.new ≡ over self.old.room.ghost_name self.old.room.now none }
    {
        self.pending = nothing_pending();
    }

    // Collects a text behind what is pending; where it has no room it is lost, and that is told.
    #[tactic(auto, unfolding(crate::specs::Output::collected, crate::specs::Output::fits))]
    pub fn put(&mut self, text: &[u8])
        ensures same_reference { self.new.room.ghost_name ≡ self.old.room.ghost_name }
        ensures value { seen self.new ≡ collected (seen self.old) text.now }
    {
        if self.has_room(text.len()) {
            self.add(text);
        } else {
            self.pending.lost = true;
        }
    }

    // Whether so many bytes have room behind what is pending.
    pub fn has_room(&self, size: usize) -> bool
        ensures { result ≡ leb (self.now.pending.length + size) (length self.now.room.now) }
    {
        self.pending
            .length
            .checked_add(size)
            .is_some_and(|end| end <= self.room.len())
    }

    // The text goes into the buffer, which has room.
    #[tactic(auto, using(line_buffer::proofs::Laws::part_put))]
    pub fn add(&mut self, text: &[u8])
        requires { self.old.pending.length + length text.now ≤ length self.old.room.now }
        ensures { seen self.new ≡ added (seen self.old) text.now }
    {
        let at = self.pending.length;
        self.room[at..at + text.len()].copy_from_slice(text);
        self.pending.length = at + text.len();
    }

    // Collects a number in decimal.
    #[tactic(auto, using(crate::proofs::Laws::fewest_decimal))]
    pub fn put_number(&mut self, n: u64)
        ensures same_reference { self.new.room.ghost_name ≡ self.old.room.ghost_name }
        ensures value { seen self.new ≡ collected (seen self.old) (decimal n) }
    {
        let mut digits = [0u8; 20];
        let count = io::decimal(n, &mut digits);
        self.put(&digits[..count]);
    }
}
