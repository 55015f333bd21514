// Whether a literal stands at a place of a line: one place at a time, or many at once by two bytes of the literal.
#![tactic(auto)]

ghost use Rattle.std.specs.Prelude.{◌≡◌, ◌+◌, ◌<◌, ◌≤◌, length, drop};
ghost use Rattle.literal_places.specs.Literal.{starts_with};
ghost use Rattle.literal_places.specs.Sweeps.{Swept, any_hit};

// A literal that is looked for in a line, by two of its bytes. It fits into the line at every place below `places`.
// Handed on by value: behind a reference it cost the matcher 1 % more instructions.
#[derive(Clone, Copy)]
pub struct Sought<'a> {
    pub line: &'a [u8],
    pub literal: &'a [u8],
    pub first: usize,
    pub second: usize,
    pub places: usize,
    pub ghost one: { first < length literal.now },
    pub ghost other: { second < length literal.now },
    pub ghost room: { places + length literal.now ≤ length line.now + 1 },
}

impl<'a> Sought<'a> {
    // Whether both bytes stand where they should for one of the n places from `at` on.
    // Called with a constant n, which makes vector code of the loop: no `if`, `&&` or `||` may stand in it. With n a const parameter
    // the matcher took 1.26 times the instructions.
    pub fn any_hit(self, at: usize, n: usize) -> bool
        requires { at + n ≤ self.places }
        ensures { result ≡ any_hit self.entry.literal.now self.entry.line.now self.entry.first self.entry.second at n }
    {
        let a = self.literal[self.first];
        let b = self.literal[self.second];
        let p = at + self.first;
        let q = at + self.second;
        let mut hit = false;
        for k in 0..n {
            hit |= (self.line[p + k] == a) & (self.line[q + k] == b);
        }
        hit
    }

    // Byte by byte: the library's `starts_with` cost the matcher a quarter more instructions.
    fn starts_at(self, at: usize) -> bool
        requires { at < self.places }
        ensures { result ≡ starts_with self.entry.literal.now (drop at self.entry.line.now) }
    {
        (0..self.literal.len()).all(|k| self.line[at + k] == self.literal[k])
    }
}

// One place at a time.
// No method: `literal` hands it on by name, and a method of `Sought<'a>` would be an `Fn(Sought, ..)` for one lifetime only.
pub fn each(sought: Sought, from: usize, to: usize) -> bool
    requires { (from ≤ to) × (to ≤ sought.places) }
    ensures { Swept sought.entry.literal.now sought.entry.line.now from to result }
{
    for at in from..to {
        if sought.any_hit(at, 1) && sought.starts_at(at) {
            return true;
        }
    }
    false
}
