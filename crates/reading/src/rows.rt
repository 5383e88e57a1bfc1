// The rows into which the rules of a term go, or the steps of the names asked for.
ghost use Rattle.std.specs.Prelude.{◌≡◌, ◌≤◌, ◌<◌, ℕ, length, IfSome};
ghost use Rattle.meaning.specs.Bounds.{STEPS, ASKED};

use crate::atom::Atom;
use meaning::Refusal;

// The caller's columns, how many rows there are, and the first fault of NAME and AMOUNT. There are as many rows as the first column has places.
#[derive(Drop)]
pub struct Rows<'a> {
    pub xs: &'a mut [u16],
    pub ys: &'a mut [u16],
    pub cs: &'a mut [i32],
    pub count: usize,
    pub fault: Option<Refusal>,
    ghost asked_room: { ASKED ≤ length xs.now },
    ghost ys_room: { length xs.now ≤ length ys.now },
    ghost cs_room: { length xs.now ≤ length cs.now },
}

impl<'a> Rows<'a> {
    ghost use Rattle.reading.specs.Rows.{Kept, RowWritten, RulePut, NamePut};

    // Puts the rule that an atom says into the next row, where there is such a row, and notes its first fault.
    pub fn put(&mut self, atom: Atom)
        requires room { self.old.count < usize.MAX }
        requires first_in { IfSome atom.first (λ k. k < STEPS) }
        requires second_in { IfSome atom.second (λ k. k < STEPS) }
        ensures kept { Kept self.old self.new }
        ensures put { RulePut atom self.old self.new }
    {
        let fault = match (atom.first, atom.second) {
            (Some(x), Some(y)) => {
                self.write(x as u16, y as u16, atom.amount);
                if lent::amount_fits(atom.amount) {
                    None
                } else {
                    Some(Refusal::Amount)
                }
            }
            _ => Some(Refusal::Name),
        };
        self.fault = self.fault.or(fault);
        self.count += 1;
    }

    // Writes the next row, where there is such a row.
    fn write(&mut self, x: u16, y: u16, c: i32)
        ensures kept { Kept self.old self.new }
        ensures same_count { (self.new.count ≡ self.old.count) × (self.new.fault ≡ self.old.fault) }
        ensures written { RowWritten x y c self.old self.new }
    {
        let k = self.count;
        if k < self.xs.len() {
            self.xs[k] = x;
            self.ys[k] = y;
            self.cs[k] = c;
        }
    }

    // Puts the step of a name asked for into the next row, or notes that it is not declared.
    pub fn put_name(&mut self, step: Option<usize>)
        requires room { self.old.count < ASKED }
        requires step_in { IfSome step (λ k. k < STEPS) }
        ensures kept { Kept self.old self.new }
        ensures put { NamePut step self.old self.new }
    {
        match step {
            Some(x) => self.xs[self.count] = x as u16,
            None => self.fault = self.fault.or(Some(Refusal::Name)),
        }
        self.count += 1;
    }
}
