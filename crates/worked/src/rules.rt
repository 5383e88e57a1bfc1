// A table of rules as three columns.
use crate::line::Ask;
use crate::words::{Column, List, Table};
use lent::Rules;

// Rule i is that of the steps xs[i] and ys[i] with the amount cs[i].
#[derive(Clone, Copy)]
pub struct Columns<const N: usize> {
    pub xs: [u16; N],
    pub ys: [u16; N],
    pub cs: [i32; N],
}

// The value put into this place of the list, where there is such a place.
pub fn put<T: Copy>(list: &mut [T], at: usize, value: T) {
    if let Some(place) = list.get_mut(at) {
        *place = value;
    }
}

impl<const N: usize> Columns<N> {
    // The pattern in every place.
    pub fn unwritten() -> Columns<N> {
        Columns {
            xs: [7; N],
            ys: [7; N],
            cs: [7; N],
        }
    }

    // The columns of this table as the line lends them.
    pub fn lent(&self, table: Table, ask: Ask<'_>) -> Rules<'_> {
        Rules {
            xs: ask.lent(List::Rules(table, Column::Xs), &self.xs),
            ys: ask.lent(List::Rules(table, Column::Ys), &self.ys),
            cs: ask.lent(List::Rules(table, Column::Cs), &self.cs),
        }
    }

    // The same, to be written.
    pub fn lend(&mut self, table: Table, ask: Ask<'_>) -> (&mut [u16], &mut [u16], &mut [i32]) {
        let Columns { xs, ys, cs } = self;
        (
            ask.lend(List::Rules(table, Column::Xs), xs),
            ask.lend(List::Rules(table, Column::Ys), ys),
            ask.lend(List::Rules(table, Column::Cs), cs),
        )
    }

    // Puts the line's second number into this place of the column, where there is such a place.
    pub fn put(&mut self, column: Column, at: usize, ask: Ask<'_>) {
        match column {
            Column::Xs => put(&mut self.xs, at, ask.step(1)),
            Column::Ys => put(&mut self.ys, at, ask.step(1)),
            Column::Cs => put(&mut self.cs, at, ask.amount(1)),
        }
    }
}
