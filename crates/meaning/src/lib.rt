// The types that every call's contract shares, and the bounds as the code has them. What they mean stands in specs/.
#![tactic(auto)]

ghost use Rattle.std.specs.Prelude.{◌≡◌};
ghost use Rattle.meaning.specs.Tables.{steps_alone, rules_now, marks_now, last_now};
ghost use Rattle.meaning.specs.Promise.{number_told};
ghost use Rattle.meaning.specs.Refusals.{number_of, ring_of};

use std::fmt;

// There are 1 to STEPS steps.
pub const STEPS: usize = 1024;

// At most so many rules are held.
pub const RULES: usize = 4096;

// At most so many marks are open.
pub const MARKS: usize = 64;

// At most so many rules are watched.
pub const WATCHED: usize = 1024;

// The largest amount; the smallest is -LARGEST.
pub const LARGEST: i32 = 1000000;

// A script has at most so many bytes.
pub const TEXT: usize = 65536;

// A name has at most so many bytes.
pub const NAME_BYTES: usize = 32;

// Terms are at most so deep.
pub const DEPTH: usize = 16;

// One yard has at most so many steps.
pub const YARD_STEPS: usize = 16;

// What a cell of the gap table has where there is no limit.
pub const NO_LIMIT: i64 = 9223372036854775807;

// One get-value has at most so many names.
pub const ASKED: usize = 256;

// A script command is lent at least so many bytes for its answer.
pub const ROOM: usize = 16384;

// The numbers given back.
pub const DONE: u32 = 0;

pub const SHORT: u32 = 1;

pub const DAMAGED: u32 = 2;

pub const STEP: u32 = 3;

pub const AMOUNT: u32 = 4;

pub const FULL: u32 = 5;

pub const CONFLICT: u32 = 6;

pub const NOMARK: u32 = 7;

pub const SYNTAX: u32 = 8;

pub const MODE: u32 = 9;

pub const NAME: u32 = 10;

pub const SIZE: u32 = 11;

pub const ABSENT: u32 = 12;

pub const YARD: u32 = 15;

// Why a call is refused.
#[derive(Clone, Copy, Debug, PartialEq, Eq)]
pub enum Refusal {
    // A lent table or list has too few places.
    Short,
    // The tables are not sound.
    Damaged,
    // Open with a count outside 1 to STEPS; a step number not below the count.
    Step,
    // An amount outside its bound.
    Amount,
    // No place for one more rule, mark, watched rule or declared name.
    Full,
    // With the new rule no arrangement exists, and a ring of so many rules says why.
    Conflict(u32),
    // Back with no mark open.
    NoMark,
    // Script text outside its form.
    Syntax,
    // A command at a place where it may not stand.
    Mode,
    // A name unknown, or declared while it stands.
    Name,
    // A script, a name, a term's depth or a list of names over its size.
    Size,
    // No rule is held under that number.
    Absent,
    // More steps than one yard has.
    Yard,
}

impl Refusal {
    // The number that C is given for it.
    pub fn number(self) -> u32
        ensures { result ≡ number_of self }
    {
        match self {
            Refusal::Short => SHORT,
            Refusal::Damaged => DAMAGED,
            Refusal::Step => STEP,
            Refusal::Amount => AMOUNT,
            Refusal::Full => FULL,
            Refusal::Conflict(_) => CONFLICT,
            Refusal::NoMark => NOMARK,
            Refusal::Syntax => SYNTAX,
            Refusal::Mode => MODE,
            Refusal::Name => NAME,
            Refusal::Size => SIZE,
            Refusal::Absent => ABSENT,
            Refusal::Yard => YARD,
        }
    }

    // How many rules the ring of a conflict has; 0 for any other refusal.
    pub fn ring(self) -> u32
        ensures { result ≡ ring_of self }
    {
        match self {
            Refusal::Conflict(length) => length,
            _ => 0,
        }
    }
}

impl fmt::Display for Refusal {
    fn fmt<W: fmt::Write>(&self, f: &mut fmt::Formatter<W>) -> fmt::Result {
        match self {
            Refusal::Short => write!(f, "SHORT"),
            Refusal::Damaged => write!(f, "DAMAGED"),
            Refusal::Step => write!(f, "STEP"),
            Refusal::Amount => write!(f, "AMOUNT"),
            Refusal::Full => write!(f, "FULL"),
            Refusal::Conflict(length) => write!(f, "CONFLICT by a ring of {length}"),
            Refusal::NoMark => write!(f, "NOMARK"),
            Refusal::Syntax => write!(f, "SYNTAX"),
            Refusal::Mode => write!(f, "MODE"),
            Refusal::Name => write!(f, "NAME"),
            Refusal::Size => write!(f, "SIZE"),
            Refusal::Absent => write!(f, "ABSENT"),
            Refusal::Yard => write!(f, "YARD"),
        }
    }
}

// How many of each thing the tables hold, and the last day of the plan. The caller lends it; a call brings it up to date. C callers lend it too, so its fields lie in this order.
#[repr(C)]
#[derive(Clone, Copy)]
pub struct Counts {
    pub steps: u32,
    pub rules: u32,
    pub marks: u32,
    pub watched: u32,
    pub last: u32,
}

// The counts of tables with so many steps, and no rules, marks or watched rules; every day is 0.
pub fn steps_alone(steps: u32) -> Counts
    ensures { result ≡ steps_alone steps }
{
    Counts {
        steps,
        rules: 0,
        marks: 0,
        watched: 0,
        last: 0,
    }
}

// The counts with so many rules held.
pub fn rules_now(counts: Counts, rules: u32) -> Counts
    ensures { result ≡ rules_now rules counts }
{
    Counts { rules, ..counts }
}

// The counts with so many marks open.
pub fn marks_now(counts: Counts, marks: u32) -> Counts
    ensures { result ≡ marks_now marks counts }
{
    Counts { marks, ..counts }
}

// The counts with that last day.
pub fn last_now(counts: Counts, last: u32) -> Counts
    ensures { result ≡ last_now last counts }
{
    Counts { last, ..counts }
}

// What Add tells: the counts after it, and how many steps have a day different from before.
#[derive(Clone, Copy)]
pub struct Added {
    pub counts: Counts,
    pub moved: u32,
}

// What Consequences tells: how many watched rules hold in every arrangement, and how many in none.
#[derive(Clone, Copy, Debug, PartialEq, Eq)]
pub struct Lengths {
    pub held: u32,
    pub excluded: u32,
}

// The number that C is given for an answer: DONE where the call was carried out, else the refusal's.
pub fn number<T: Copy>(answer: Result<T, Refusal>) -> u32
    ensures { result ≡ number_told answer }
{
    match answer {
        Ok(_) => DONE,
        Err(refusal) => refusal.number(),
    }
}
