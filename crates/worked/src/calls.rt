// The public calls, each on the office's tables and lists as the line lends them.
use crate::answer::{Answer, Given};
use crate::line::{Ask, Rule};
use crate::office::Office;
use crate::words::{Call, List, Table};
use lent::Tables;
use meaning::{Added, Lengths, Refusal};

// The list that Ring check is to look at: list two where the line names it, else the numbers after the rule.
fn ring_of<'a>(ask: Ask<'a>, two: &'a [u32]) -> &'a [u32] {
    match ask.list() {
        Some(List::Two) => two,
        _ => ask.numbers().get(3..).unwrap_or(&[]),
    }
}

impl Office {
    // Makes the call.
    pub fn make(&mut self, call: Call, ask: Ask<'_>) -> Answer {
        match call {
            Call::Open => self.open(ask).map(Given::from),
            Call::Watch => self.watch(ask).map(Given::from),
            Call::Mark => self.mark(ask).map(Given::from),
            Call::Back => self.back(ask).map(Given::from),
            Call::Withdraw => self.withdraw(ask).map(Given::from),
            Call::Add => self.add(ask).map(Given::from),
            Call::Trial => self.trial(ask).map(|tried| Given::from(tried.moved)),
            Call::Consequences => self.consequences(ask).map(Given::from),
            Call::RingCheck => self.ring_check(ask).map(Given::from),
            Call::LastDay => self.last_day(ask).map(Given::from),
            Call::Gap => self.gap(ask).map(Given::from),
        }
    }

    fn open(&mut self, ask: Ask<'_>) -> Result<(), Refusal> {
        let held = self.rules.lent(Table::Held, ask);
        let watched = self.watched.lent(Table::Watched, ask);
        self.counts = desk::open(
            self.counts,
            held,
            ask.lend(List::Days, &mut self.days),
            ask.lend(List::Levels, &mut self.levels),
            watched,
            &mut self.gaps,
            ask.number(0),
        )?;
        Ok(())
    }

    fn watch(&mut self, ask: Ask<'_>) -> Result<(), Refusal> {
        let held = self.rules.lent(Table::Held, ask);
        let (wxs, wys, wcs) = self.watched.lend(Table::Watched, ask);
        let Rule { x, y, c } = ask.rule();
        self.counts = desk::watch(
            self.counts,
            held,
            ask.lent(List::Days, &self.days),
            ask.lent(List::Levels, &self.levels),
            wxs,
            wys,
            wcs,
            &self.gaps,
            x,
            y,
            c,
        )?;
        Ok(())
    }

    fn mark(&mut self, ask: Ask<'_>) -> Result<(), Refusal> {
        let held = self.rules.lent(Table::Held, ask);
        let watched = self.watched.lent(Table::Watched, ask);
        let tables = Tables {
            rules: held,
            days: ask.lent(List::Days, &self.days),
            levels: ask.lent(List::Levels, &self.levels),
            watched,
        };
        self.counts = desk::mark(self.counts, tables, &self.gaps)?;
        Ok(())
    }

    fn back(&mut self, ask: Ask<'_>) -> Result<(), Refusal> {
        let held = self.rules.lent(Table::Held, ask);
        let watched = self.watched.lent(Table::Watched, ask);
        self.counts = desk::back(
            self.counts,
            held,
            ask.lend(List::Days, &mut self.days),
            ask.lend(List::Levels, &mut self.levels),
            watched,
            &mut self.gaps,
        )?;
        Ok(())
    }

    fn withdraw(&mut self, ask: Ask<'_>) -> Result<(), Refusal> {
        let held = self.rules.lent(Table::Held, ask);
        let watched = self.watched.lent(Table::Watched, ask);
        self.counts = desk::withdraw(
            self.counts,
            held,
            ask.lend(List::Days, &mut self.days),
            ask.lend(List::Levels, &mut self.levels),
            watched,
            &mut self.gaps,
            ask.number(0),
        )?;
        Ok(())
    }

    // Add, with list one for the ring.
    fn add(&mut self, ask: Ask<'_>) -> Result<u32, Refusal> {
        let (xs, ys, cs) = self.rules.lend(Table::Held, ask);
        let watched = self.watched.lent(Table::Watched, ask);
        let Rule { x, y, c } = ask.rule();
        let added = desk::add(
            self.counts,
            xs,
            ys,
            cs,
            ask.lend(List::Days, &mut self.days),
            ask.lend(List::Levels, &mut self.levels),
            watched,
            &mut self.gaps,
            ask.lend(List::One, &mut self.one),
            x,
            y,
            c,
        )?;
        self.counts = added.counts;
        Ok(added.moved)
    }

    // Trial, with list one for the days and list two for the ring.
    pub fn trial(&mut self, ask: Ask<'_>) -> Result<Added, Refusal> {
        let held = self.rules.lent(Table::Held, ask);
        let watched = self.watched.lent(Table::Watched, ask);
        let tables = Tables {
            rules: held,
            days: ask.lent(List::Days, &self.days),
            levels: ask.lent(List::Levels, &self.levels),
            watched,
        };
        let Rule { x, y, c } = ask.rule();
        desk::trial(
            self.counts,
            tables,
            &self.gaps,
            ask.lend(List::One, &mut self.one),
            ask.lend(List::Two, &mut self.two),
            x,
            y,
            c,
        )
    }

    // Consequences, with lists one and two.
    fn consequences(&mut self, ask: Ask<'_>) -> Result<Lengths, Refusal> {
        let held = self.rules.lent(Table::Held, ask);
        let watched = self.watched.lent(Table::Watched, ask);
        let tables = Tables {
            rules: held,
            days: ask.lent(List::Days, &self.days),
            levels: ask.lent(List::Levels, &self.levels),
            watched,
        };
        desk::consequences(
            self.counts,
            tables,
            &self.gaps,
            ask.lend(List::One, &mut self.one),
            ask.lend(List::Two, &mut self.two),
        )
    }

    fn ring_check(&self, ask: Ask<'_>) -> Result<bool, Refusal> {
        let lent = self.lent(ask);
        let ring = ring_of(ask, lent.two);
        let Rule { x, y, c } = ask.rule();
        desk::ring_check(lent.counts, lent.tables, lent.gaps, ring, x, y, c)
    }

    fn last_day(&self, ask: Ask<'_>) -> Result<u32, Refusal> {
        let lent = self.lent(ask);
        desk::last_day(lent.counts, lent.tables, lent.gaps)
    }

    // Gap, of the line's first two numbers.
    fn gap(&self, ask: Ask<'_>) -> Result<Option<i64>, Refusal> {
        let lent = self.lent(ask);
        let (x, y) = (ask.number(0), ask.number(1));
        desk::gap(lent.counts, lent.tables, lent.gaps, x, y)
    }
}
