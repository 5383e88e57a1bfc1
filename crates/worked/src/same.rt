// Tables and lists held against those of another office.
use crate::office::{Lent, Office};
use crate::rules::Columns;
use gaps::Gaps;
use lent::Rules;
use meaning::Counts;

// The first place of each list that is looked at; so many rows and columns of the gap table are left out.
#[derive(Clone, Copy, Default)]
pub struct Start {
    pub rules: usize,
    pub steps: usize,
    pub levels: usize,
    pub watched: usize,
    pub gaps: usize,
    pub one: usize,
    pub two: usize,
}

// What is as it is in another office: the counts with the tables, list one and list two.
#[derive(Clone, Copy)]
pub struct Same {
    pub tables: bool,
    pub one: bool,
    pub two: bool,
}

// The counts as numbers: steps, rules, marks, watched rules, and the last day.
pub fn numbers(counts: Counts) -> [u32; 5] {
    [
        counts.steps,
        counts.rules,
        counts.marks,
        counts.watched,
        counts.last,
    ]
}

// Whether the places from that one on that both lists have hold the same.
fn same_from<T: PartialEq>(from: usize, list: &[T], other: &[T]) -> bool {
    let n = list.len().min(other.len());
    list.get(from..n) == other.get(from..n)
}

// Whether the rules from that place on hold the same.
fn same_rules<const N: usize>(from: usize, rules: Rules<'_>, other: &Columns<N>) -> bool {
    same_from(from, rules.xs, &other.xs)
        && same_from(from, rules.ys, &other.ys)
        && same_from(from, rules.cs, &other.cs)
}

// Whether the cells of both gap tables hold the same that are not in the first n rows and columns.
fn same_gaps(n: usize, gaps: &Gaps, other: &Gaps) -> bool {
    let mut rows = gaps.iter().zip(other).enumerate();
    rows.all(|(x, (row, other))| same_from(if x < n { n } else { 0 }, row, other))
}

impl Same {
    // What is the same as in the other office from these places on.
    pub fn of(start: Start, lent: Lent<'_>, other: &Office) -> Same {
        Same {
            tables: numbers(lent.counts) == numbers(other.counts)
                && same_rules(start.rules, lent.tables.rules, &other.rules)
                && same_from(start.steps, lent.tables.days, &other.days)
                && same_from(start.levels, lent.tables.levels, &other.levels)
                && same_rules(start.watched, lent.tables.watched, &other.watched)
                && same_gaps(start.gaps, lent.gaps, &other.gaps),
            one: same_from(start.one, lent.one, &other.one),
            two: same_from(start.two, lent.two, &other.two),
        }
    }

    // Whether all of it is the same.
    pub fn all(self) -> bool {
        self.tables && self.one && self.two
    }
}
