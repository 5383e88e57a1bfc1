// All that the calls are lent, by value: the counts, the nine tables and two lists. The lists have one place more than the calls need.
use crate::line::Ask;
use crate::rules::{self, Columns};
use crate::words::{List, Table};
use gaps::Gaps;
use lent::Tables;
use meaning::Counts;

// How many places the lists have.
const RULE_PLACES: usize = meaning::RULES + 1;

const STEP_PLACES: usize = meaning::STEPS + 1;

const WATCH_PLACES: usize = meaning::WATCHED + 1;

// The counts, the tables and the lists.
#[derive(Clone, Copy)]
pub struct Office {
    pub counts: Counts,
    pub rules: Columns<RULE_PLACES>,
    pub days: [u32; STEP_PLACES],
    pub levels: [u8; RULE_PLACES],
    pub watched: Columns<WATCH_PLACES>,
    pub gaps: Gaps,
    pub one: [u32; WATCH_PLACES],
    pub two: [u32; WATCH_PLACES],
}

// The tables and lists as a line lends them: one of them with as many places as it says.
#[derive(Clone, Copy)]
pub struct Lent<'a> {
    pub counts: Counts,
    pub tables: Tables<'a>,
    pub gaps: &'a Gaps,
    pub one: &'a [u32],
    pub two: &'a [u32],
}

impl Office {
    // These counts, and the pattern in every place: what a place holds that no call has written.
    pub fn unwritten(counts: Counts) -> Office {
        Office {
            counts,
            rules: Columns::unwritten(),
            days: [7; STEP_PLACES],
            levels: [7; RULE_PLACES],
            watched: Columns::unwritten(),
            gaps: [[7; meaning::YARD_STEPS]; meaning::YARD_STEPS],
            one: [7; WATCH_PLACES],
            two: [7; WATCH_PLACES],
        }
    }

    // All of it as the line lends it.
    pub fn lent(&self, ask: Ask<'_>) -> Lent<'_> {
        let rules = self.rules.lent(Table::Held, ask);
        let watched = self.watched.lent(Table::Watched, ask);
        let tables = Tables {
            rules,
            days: ask.lent(List::Days, &self.days),
            levels: ask.lent(List::Levels, &self.levels),
            watched,
        };
        Lent {
            counts: self.counts,
            tables,
            gaps: &self.gaps,
            one: ask.lent(List::One, &self.one),
            two: ask.lent(List::Two, &self.two),
        }
    }

    // Puts the line's number into one place of the list that it names, list two where it names none, where there is such a place; or into one cell of the gap table.
    pub fn put(&mut self, ask: Ask<'_>) {
        let at = ask.number(0) as usize;
        let number = ask.number(1);
        match ask.list() {
            Some(List::Rules(Table::Held, column)) => self.rules.put(column, at, ask),
            Some(List::Rules(Table::Watched, column)) => self.watched.put(column, at, ask),
            Some(List::Days) => rules::put(&mut self.days, at, number),
            Some(List::Levels) => rules::put(&mut self.levels, at, (number % 256) as u8),
            Some(List::Gaps) => self.put_gap(at, number as usize, ask.limit()),
            Some(List::One) => rules::put(&mut self.one, at, number),
            Some(List::Two) | None => rules::put(&mut self.two, at, number),
        }
    }

    // Puts the limit into one cell of the gap table, where there is such a cell.
    fn put_gap(&mut self, x: usize, y: usize, limit: i64) {
        if let Some(row) = self.gaps.get_mut(x) {
            rules::put(row, y, limit);
        }
    }
}
