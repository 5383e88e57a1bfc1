// The words of a line: the public calls, what else a line can ask for, the lists, and what is said of the line.
use std::fmt;

// A public call.
#[derive(Clone, Copy, Debug, PartialEq, Eq)]
pub enum Call {
    Open,
    Watch,
    Mark,
    Back,
    Withdraw,
    Add,
    Trial,
    Consequences,
    RingCheck,
    LastDay,
    Gap,
}

// A table of rules: those held, or those watched.
#[derive(Clone, Copy, Debug, PartialEq, Eq)]
pub enum Table {
    Held,
    Watched,
}

// A column of a table of rules.
#[derive(Clone, Copy, Debug, PartialEq, Eq)]
pub enum Column {
    Xs,
    Ys,
    Cs,
}

// A list of the office, or its gap table.
#[derive(Clone, Copy, Debug, PartialEq, Eq)]
pub enum List {
    Rules(Table, Column),
    Days,
    Levels,
    Gaps,
    One,
    Two,
}

// What a line asks for.
#[derive(Clone, Copy, Debug, PartialEq, Eq)]
pub enum Asked {
    // The line is only copied.
    Heading,
    // No word of the line asks for anything.
    Nothing,
    Call(Call),
    Part,
    Each,
    Counts,
    Put,
    Fill,
    Past,
    Rule,
    Show,
}

// A word that is known.
#[derive(Clone, Copy, Debug, PartialEq, Eq)]
pub enum Word {
    Asked(Asked),
    List(List),
    Times,
    Onward,
    Places,
    Unlimited,
}

impl Call {
    // The call that these letters name. Of the two calls with two words the first says which.
    fn named(letters: &[u8]) -> Option<Call> {
        match letters {
            b"open" => Some(Call::Open),
            b"watch" => Some(Call::Watch),
            b"mark" => Some(Call::Mark),
            b"back" => Some(Call::Back),
            b"withdraw" => Some(Call::Withdraw),
            b"add" => Some(Call::Add),
            b"trial" => Some(Call::Trial),
            b"consequences" => Some(Call::Consequences),
            b"ring" => Some(Call::RingCheck),
            b"last" => Some(Call::LastDay),
            b"gap" => Some(Call::Gap),
            _ => None,
        }
    }
}

impl fmt::Display for Call {
    fn fmt<W: fmt::Write>(&self, f: &mut fmt::Formatter<W>) -> fmt::Result {
        f.write_str(match self {
            Call::Open => "open",
            Call::Watch => "watch",
            Call::Mark => "mark",
            Call::Back => "back",
            Call::Withdraw => "withdraw",
            Call::Add => "add",
            Call::Trial => "trial",
            Call::Consequences => "consequences",
            Call::RingCheck => "ring check",
            Call::LastDay => "last day",
            Call::Gap => "gap",
        })
    }
}

impl Asked {
    // What these letters ask for.
    fn named(letters: &[u8]) -> Option<Asked> {
        match letters {
            b"part" => Some(Asked::Part),
            b"each" => Some(Asked::Each),
            b"counts" => Some(Asked::Counts),
            b"put" => Some(Asked::Put),
            b"fill" => Some(Asked::Fill),
            b"past" => Some(Asked::Past),
            b"rule" => Some(Asked::Rule),
            b"show" => Some(Asked::Show),
            _ => Call::named(letters).map(Asked::Call),
        }
    }
}

impl List {
    // The list that these letters name.
    fn named(letters: &[u8]) -> Option<List> {
        match letters {
            b"xs" => Some(List::Rules(Table::Held, Column::Xs)),
            b"ys" => Some(List::Rules(Table::Held, Column::Ys)),
            b"cs" => Some(List::Rules(Table::Held, Column::Cs)),
            b"days" => Some(List::Days),
            b"levels" => Some(List::Levels),
            b"wxs" => Some(List::Rules(Table::Watched, Column::Xs)),
            b"wys" => Some(List::Rules(Table::Watched, Column::Ys)),
            b"wcs" => Some(List::Rules(Table::Watched, Column::Cs)),
            b"gaps" => Some(List::Gaps),
            b"one" => Some(List::One),
            b"two" => Some(List::Two),
            _ => None,
        }
    }
}

impl Word {
    // The word of these letters, if it is known.
    pub fn named(letters: &[u8]) -> Option<Word> {
        match letters {
            b"times" => Some(Word::Times),
            b"onward" => Some(Word::Onward),
            b"places" => Some(Word::Places),
            b"none" => Some(Word::Unlimited),
            _ => match List::named(letters) {
                Some(list) => Some(Word::List(list)),
                None => Asked::named(letters).map(Word::Asked),
            },
        }
    }
}
