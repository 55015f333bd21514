// The plain data that every layer shares: the settings of a search, how a run stands, and the sizes and bounds of
// document 01.
#![tactic(auto)]

ghost use Rattle.std.specs.Prelude.{◌≡◌};
ghost use Rattle.definition.specs.Bounds.{plain};

// What a byte that marks binary data does to the input.
#[derive(Clone, Copy)]
pub enum Binary {
    Ignore,
    Quit(u8),
    Convert(u8),
}

// Whether a run goes on, and if not, what stopped it.
#[derive(Clone, Copy, PartialEq, Eq)]
pub enum Going {
    On,
    LimitMet,
    NonmatchMet,
}

// What becomes of a line that is gone through.
#[derive(Clone, Copy, PartialEq, Eq)]
pub enum Fate {
    Match,
    After,
    Other,
    NoRow,
}

#[derive(Clone, Copy)]
pub struct Settings {
    // lines of context wanted before and after a match
    pub before: usize,
    pub after: usize,
    // lines are selected where the answer is no
    pub invert: bool,
    // lines that no other rule gives a row get one as other context
    pub passthru: bool,
    // an unselected line that follows some match stops the run
    pub stop: bool,
    // how many matches are wanted at most
    pub limit: Option<u64>,
    pub terminator: u8,
    pub binary: Binary,
}

impl Settings {
    // Nothing asked for but the lines that end in a byte. Others are built from these, so that a new field costs a line.
    pub fn plain(terminator: u8) -> Settings
        ensures { result ≡ plain terminator }
    {
        Settings {
            before: 0,
            after: 0,
            invert: false,
            passthru: false,
            stop: false,
            limit: None,
            terminator: terminator,
            binary: Binary::Ignore,
        }
    }
}

// What a row is of.
#[derive(Clone, Copy, PartialEq, Eq)]
pub enum Kind {
    Match,
    Before,
    After,
    Other,
    Break,
}

// The number that stands for a kind in a row table.
impl From<Kind> for u64 {
    ghost use Rattle.definition.specs.Rows.{kind_number};

    ghost from_gives = { λ kind number. number ≡ kind_number kind };

    fn from(kind: Kind) -> u64 {
        match kind {
            Kind::Match => 1,
            Kind::Before => 2,
            Kind::After => 3,
            Kind::Other => 4,
            Kind::Break => 5,
        }
    }
}

// A row: the number of its kind, the line's first byte, counting from 0, its length with terminator, and its number from 1. `Kind`
// has 01's kinds; a row of any other number can be put too.
#[derive(Clone, Copy)]
pub struct Row {
    pub kind: u64,
    pub offset: u64,
    pub length: u64,
    pub number: u64,
}

// Why a search ended.
#[derive(Clone, Copy, PartialEq, Eq)]
pub enum Cause {
    InputEnd,
    QuitByte,
    Limit,
    Nonmatch,
}

// The number that stands for a cause in an end record.
impl From<Cause> for u64 {
    ghost use Rattle.definition.specs.Definition.{cause_number};

    ghost from_gives = { λ cause number. number ≡ cause_number cause };

    fn from(cause: Cause) -> u64 {
        match cause {
            Cause::InputEnd => 0,
            Cause::QuitByte => 1,
            Cause::Limit => 2,
            Cause::Nonmatch => 3,
        }
    }
}

// The end record.
#[derive(Clone, Copy)]
pub struct End {
    // gone through
    pub bytes: u64,
    pub lines: u64,
    pub matches: u64,
    // its number: `Cause` has 01's, and any other can be told too
    pub cause: u64,
    // where a byte was met that marks binary data, counting from 0
    pub offset: Option<u64>,
}

// Why a call is not served, in the order of the table of refusals.
#[derive(Clone, Copy, PartialEq, Eq)]
pub enum Refusal {
    // settings out of range, or pass-through with context
    BadSettings,
    // a window of 0 bytes at opening, or of too many
    BadWindow,
    // no line waits, and what is held fills the window
    WindowFull,
    // the table has fewer rows than the answer needs
    TableShort,
    // the input's size is taken in full
    SizeTaken,
    // no line waits that could be answered, or the session does not agree with itself or its window
    Unsound,
    // lines or input remain, and no stop has come
    Unfinished,
}

// The number of a refusal.
impl From<Refusal> for u64 {
    ghost use Rattle.definition.specs.Numbers.{refusal_number};

    ghost from_gives = { λ refusal number. number ≡ refusal_number refusal };

    fn from(refusal: Refusal) -> u64 {
        match refusal {
            Refusal::BadSettings => 1,
            Refusal::BadWindow => 2,
            Refusal::WindowFull => 3,
            Refusal::TableShort => 4,
            Refusal::SizeTaken => 5,
            Refusal::Unsound => 6,
            Refusal::Unfinished => 7,
        }
    }
}

// The largest value each may take. specs/Bounds.antt has the same numbers for the contracts, since a definition cannot
// name these.
pub const MAX_CONTEXT: usize = 1_000;

pub const MAX_LIMIT: u64 = 4_294_967_295;

pub const MAX_WINDOW: usize = 65_536;

pub const MAX_INPUT: u64 = 4_294_967_295;

// How many numbers a row is.
pub const ROW: usize = 4;
