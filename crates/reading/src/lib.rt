// A text read once, from its opening bracket on: the command that it begins with, or what stops the reading. Each name is looked up where it is met, and each amount
// judged; a term's rules, or the steps of the names asked for, are put into rows.
#![tactic(auto)]

ghost use Rattle.std.specs.Prelude.{◌≡◌, ◌≤◌, length};
ghost use Rattle.meaning.specs.Bounds.{ASKED};
ghost use Rattle.text.specs.Table.{TABLE};
ghost use Rattle.lent.specs.Lent.{columns};
ghost use Rattle.names.specs.Names.{AllDifferent};
ghost use Rattle.reading.specs.Reading.{reading};
ghost use Rattle.reading.specs.Heard.{Hears, NoneReserved};
ghost use Rattle.reading.specs.Parts.{CommandSaid};

use meaning::Refusal;
use names::Names;
use reader::Reader;
use rows::Rows;

mod atom;
mod reader;
mod rows;

// Why reading stopped, and the place of the token that stopped it.
#[derive(Clone, Copy, Debug, PartialEq, Eq)]
pub enum Stop {
    // Something unsupported.
    Unsupported(usize),
    // A departure from the form.
    Wrong(usize),
    // A size fault.
    Size(usize),
}

// A command by value: the ends of the name that it declares, how many rules or names it has, how many levels it opens or closes.
#[derive(Clone, Copy, Debug, PartialEq, Eq)]
pub enum Kind {
    SetLogic,
    Declare(usize, usize),
    Assert(usize),
    Push(u64),
    Pop(u64),
    CheckSat,
    GetValue(usize),
    Exit,
}

// A command that was read, the place past it, and the first fault of its names and amounts.
#[derive(Clone, Copy, Debug, PartialEq, Eq)]
pub struct Heard {
    pub kind: Kind,
    pub past: usize,
    pub fault: Option<Refusal>,
}

// Reads the command that the text begins with.
pub fn read_command<'a>(
    text: &'a [u8],
    tab: &'a [u8; text::PLACES],
    names: Names<'a>,
    xs: &mut [u16],
    ys: &mut [u16],
    cs: &mut [i32],
) -> Result<Heard, Stop>
    requires tab_value { tab.now ≡ TABLE }
    requires all_different { AllDifferent names.count names.letters.now names.lens.now }
    requires none_reserved { NoneReserved names.count names.letters.now names.lens.now }
    requires in_bounds { ASKED ≤ length xs.old }
    requires xs_in_bounds { length xs.old ≤ length ys.old }
    requires xs_in_bounds_2 { length xs.old ≤ length cs.old }
    ensures { Hears (reading text.now) (λ c e h. CommandSaid names.entry.count names.entry.letters.now names.entry.lens.now c e h (columns xs.new ys.new cs.new)) result }
{
    let reader = Reader { text, tab, names };
    let mut rows = Rows {
        xs,
        ys,
        cs,
        count: 0,
        fault: None,
    };
    reader.command(&mut rows)
}
