// What is written: what a call gave and what is to be seen after it, numbers and lists.
use crate::answer::{Answer, Given, Told};
use crate::line::Ask;
use crate::office::Lent;
use crate::same::{self, Same};
use crate::words::{Call, List};
use meaning::Refusal;
use std::fmt::{self, Display};
use std::io::{self, Write};

// How many days a line shows at most.
const SHOWN: u32 = 6;

// Numbers, each with a space before it.
#[derive(Clone, Copy)]
struct Numbers<'a>(&'a [u32]);

impl Display for Numbers<'_> {
    fn fmt<W: fmt::Write>(&self, f: &mut fmt::Formatter<W>) -> fmt::Result {
        for number in self.0 {
            write!(f, " {number}")?;
        }
        Ok(())
    }
}

// A cell of the gap table, which can be that there is no limit.
#[derive(Clone, Copy)]
struct Limit(i64);

impl Display for Limit {
    fn fmt<W: fmt::Write>(&self, f: &mut fmt::Formatter<W>) -> fmt::Result {
        match self.0 {
            meaning::NO_LIMIT => f.write_str("none"),
            limit => write!(f, "{limit}"),
        }
    }
}

// What is said of what is as before, and of what is not.
pub fn word(same: bool) -> &'static str {
    if same { "same" } else { "changed" }
}

// Writes whether all that it is about is as before.
fn unchanged<W: Write>(out: &mut W, same: bool) -> io::Result<()> {
    write!(out, ", {}", word(same))
}

// Writes what it is about, and the first numbers of the list.
fn listed<W: Write>(out: &mut W, what: &str, n: u32, list: &[u32]) -> io::Result<()> {
    write!(
        out,
        ", {what}{}",
        Numbers(list.get(..n as usize).unwrap_or(list))
    )
}

// Writes what it is about, and whether it is as before.
fn flagged<W: Write>(out: &mut W, what: &str, same: bool) -> io::Result<()> {
    write!(out, ", {what} {}", word(same))
}

// Writes the counts: steps, rules, marks, watched rules, and the last day.
fn counts<W: Write>(out: &mut W, lent: Lent<'_>) -> io::Result<()> {
    write!(out, ", counts{}", Numbers(&same::numbers(lent.counts)))
}

// Writes the counts, and the days of the first steps.
fn plan<W: Write>(out: &mut W, lent: Lent<'_>) -> io::Result<()> {
    counts(out, lent)?;
    listed(out, "days", lent.counts.steps.min(SHOWN), lent.tables.days)
}

// Writes what is to be seen after a conflict. Add: the ring in list one, and whether the counts and the tables are as before. Trial: list two with the ring, and whether list one is as
// before, and the counts and tables.
fn ring<W: Write>(
    out: &mut W,
    call: Call,
    length: u32,
    same: Same,
    lent: Lent<'_>,
) -> io::Result<()> {
    if call == Call::Add {
        listed(out, "ring", length, lent.one)?;
        return unchanged(out, same.tables);
    }
    flagged(out, "one", same.one)?;
    listed(out, "two", length, lent.two)?;
    flagged(out, "counts", same.tables)
}

// Writes what is to be seen after a call that was carried out. Watch and Mark: the counts. Open, Back, Withdraw and Add: also the days, which they can write. Trial: list one with the days, and
// whether list two is as before, and the counts and tables. Last day and Gap: whether the counts and the tables are as before.
fn done<W: Write>(out: &mut W, call: Call, same: Same, lent: Lent<'_>) -> io::Result<()> {
    match call {
        Call::Watch | Call::Mark => counts(out, lent),
        Call::Open | Call::Back | Call::Withdraw | Call::Add => plan(out, lent),
        Call::Trial => {
            listed(out, "one", lent.counts.steps, lent.one)?;
            flagged(out, "two", same.two)?;
            flagged(out, "counts", same.tables)
        }
        Call::LastDay | Call::Gap => unchanged(out, same.tables),
        Call::Consequences | Call::RingCheck => Ok(()),
    }
}

// Writes the answer of a call that is asked for alone, and then what is to be seen: after a refusal that writes nothing whether all is as before; after Consequences the filled parts.
pub fn told<W: Write>(
    out: &mut W,
    call: Call,
    answer: Answer,
    same: Same,
    lent: Lent<'_>,
) -> io::Result<()> {
    write!(out, ": {}", Told(answer))?;
    match answer {
        Err(Refusal::Conflict(length)) => ring(out, call, length, same, lent),
        Err(_) => unchanged(out, same.all()),
        Ok(Given::Split(lengths)) => {
            listed(out, "first", lengths.held, lent.one)?;
            listed(out, "second", lengths.excluded, lent.two)
        }
        Ok(_) => done(out, call, same, lent),
    }
}

// Writes all numbers of a part.
pub fn part<W: Write>(out: &mut W, numbers: &[u32]) -> io::Result<()> {
    write!(out, ", part{}", Numbers(numbers))
}

// Writes a space and the cell, where there is one.
fn cell<W: Write, T: Display>(out: &mut W, cell: Option<&T>) -> io::Result<()> {
    match cell {
        Some(cell) => write!(out, " {cell}"),
        None => Ok(()),
    }
}

// Writes the rule at the line's place of three columns.
pub fn rule<W: Write>(out: &mut W, ask: Ask<'_>, lent: Lent<'_>) -> io::Result<()> {
    let at = ask.number(0) as usize;
    write!(out, ":")?;
    cell(out, lent.tables.rules.xs.get(at))?;
    cell(out, lent.tables.rules.ys.get(at))?;
    cell(out, lent.tables.rules.cs.get(at))
}

// Writes the row of the gap table that the line's first number says, over the steps; where the line has a second number, only that cell.
fn gap_row<W: Write>(out: &mut W, ask: Ask<'_>, lent: Lent<'_>) -> io::Result<()> {
    let gaps = lent.gaps;
    let Some(row) = gaps.get(ask.number(0) as usize) else {
        return Ok(());
    };
    let (from, n) = match ask.numbers().get(1) {
        Some(y) => (*y as usize, 1),
        None => (0, lent.counts.steps as usize),
    };
    for limit in row.iter().skip(from).take(n) {
        write!(out, " {}", Limit(*limit))?;
    }
    Ok(())
}

// Writes the cell at the line's place of the list that it names: the levels, a row of the gap table or a cell of it, else the days.
pub fn place<W: Write>(out: &mut W, ask: Ask<'_>, lent: Lent<'_>) -> io::Result<()> {
    let at = ask.number(0) as usize;
    write!(out, ":")?;
    match ask.list() {
        Some(List::Levels) => cell(out, lent.tables.levels.get(at)),
        Some(List::Gaps) => gap_row(out, ask, lent),
        _ => cell(out, lent.tables.days.get(at)),
    }
}
