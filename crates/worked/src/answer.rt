// What a call gave.
use meaning::{Lengths, Refusal};
use std::fmt;

// What a call gives that was carried out.
#[derive(Clone, Copy, Debug, PartialEq, Eq)]
pub enum Given {
    // One value, 0 where the call gives none.
    Value(u32),
    // Consequences: how many watched rules hold in every arrangement, and how many in none.
    Split(Lengths),
    // Gap: the limit of the pair, if it has one.
    Limit(Option<i64>),
}

pub type Answer = Result<Given, Refusal>;

// An answer as it is written: its number and two values. The second of Gap is its limit, which can be below 0.
#[derive(Clone, Copy)]
pub struct Told(pub Answer);

impl From<()> for Given {
    fn from(_nothing: ()) -> Given {
        Given::Value(0)
    }
}

impl From<u32> for Given {
    fn from(value: u32) -> Given {
        Given::Value(value)
    }
}

impl From<bool> for Given {
    fn from(verdict: bool) -> Given {
        Given::Value(u32::from(verdict))
    }
}

impl From<Lengths> for Given {
    fn from(lengths: Lengths) -> Given {
        Given::Split(lengths)
    }
}

impl From<Option<i64>> for Given {
    fn from(limit: Option<i64>) -> Given {
        Given::Limit(limit)
    }
}

impl fmt::Display for Given {
    fn fmt<W: fmt::Write>(&self, f: &mut fmt::Formatter<W>) -> fmt::Result {
        match *self {
            Given::Value(value) => write!(f, "{value} 0"),
            Given::Split(Lengths { held, excluded }) => write!(f, "{held} {excluded}"),
            Given::Limit(Some(limit)) => write!(f, "1 {limit}"),
            Given::Limit(None) => write!(f, "0 0"),
        }
    }
}

impl fmt::Display for Told {
    fn fmt<W: fmt::Write>(&self, f: &mut fmt::Formatter<W>) -> fmt::Result {
        match self.0 {
            Ok(given) => write!(f, "{} {given}", meaning::DONE),
            Err(refusal) => write!(f, "{} {} 0", refusal.number(), refusal.ring()),
        }
    }
}
