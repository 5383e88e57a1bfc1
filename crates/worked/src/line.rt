// Reading a line: its words and numbers one after the other. Other words and signs say nothing.
ghost use Rattle.std.specs.Prelude.{◌≤◌};

use crate::words::{Asked, List, Word};
use meaning::Counts;
use std::str;

// How often a line is carried out at most.
const MOST: u32 = 5000;

// How many numbers of a line are kept.
const NUMBERS: usize = 16;

// No i32 is so large.
const LIMIT: u32 = lent::BIAS as u32;

// What is read of a line so far.
#[derive(Clone, Copy)]
pub struct Line {
    asked: Asked,
    // The list named last.
    list: Option<List>,
    // The list that is lent with so many places.
    cut: Option<(List, u32)>,
    // How often the line is carried out, and whether both steps of its rule rise by one each time.
    times: u32,
    onward: bool,
    // Whether the amount is below 0, and whether it is counted down from no limit.
    minus: bool,
    unlimited: bool,
    // The numbers that are kept, how many they are, and the one read last. An array, since a line is Copy.
    kept: [u32; NUMBERS],
    count: usize,
    last: u32,
}

// What a byte can be part of.
#[derive(Clone, Copy, PartialEq, Eq)]
enum Kind {
    Word,
    Number,
    Minus,
    Gap,
}

impl From<u8> for Kind {
    fn from(byte: u8) -> Kind {
        match byte {
            b'a'..=b'z' => Kind::Word,
            b'0'..=b'9' => Kind::Number,
            b'-' => Kind::Minus,
            _ => Kind::Gap,
        }
    }
}

// The number of these digits; the largest u32 where it is larger.
fn number(digits: &[u8]) -> u32 {
    match str::from_utf8(digits) {
        Ok(text) => text.parse().unwrap_or(u32::MAX),
        Err(_) => u32::MAX,
    }
}

impl Line {
    // A line with this request, and no word and no number yet.
    fn new(asked: Asked) -> Line {
        Line {
            asked,
            list: None,
            cut: None,
            times: 1,
            onward: false,
            minus: false,
            unlimited: false,
            kept: [0; NUMBERS],
            count: 0,
            last: 0,
        }
    }

    // What the line asks. An empty line and one that starts with `#` are copied.
    pub fn read(text: &[u8]) -> Line {
        if text.is_empty() || text.starts_with(b"#") {
            return Line::new(Asked::Heading);
        }
        let mut line = Line::new(Asked::Nothing);
        for run in text.chunk_by(|byte, next| Kind::from(*byte) == Kind::from(*next)) {
            line.hear(run);
        }
        line
    }

    // What the line asks with this run of bytes more, which are all of a kind. A minus sign makes the amount negative.
    fn hear(&mut self, run: &[u8]) {
        match run.first().map(|byte| Kind::from(*byte)) {
            Some(Kind::Word) => self.hear_word(run),
            Some(Kind::Number) => self.hear_number(number(run)),
            Some(Kind::Minus) => self.minus = true,
            Some(Kind::Gap) | None => {}
        }
    }

    // What the line asks with this word more. `N times` says how often, `onward` that steps rise, `LIST N places` how many places of it are lent, `none` that the cell has no limit.
    fn hear_word(&mut self, letters: &[u8]) {
        match Word::named(letters) {
            None => {}
            Some(Word::Asked(asked)) => self.asked = asked,
            Some(Word::List(list)) => self.list = Some(list),
            Some(Word::Times) => {
                self.times = self.last;
                self.count = 0;
            }
            Some(Word::Onward) => self.onward = true,
            Some(Word::Places) => {
                let places = self.last;
                self.cut = self.list.map(|list| (list, places));
                self.count = self.count.saturating_sub(1);
            }
            Some(Word::Unlimited) => self.unlimited = true,
        }
    }

    // What the line asks with this number more: it is kept where there is a place left.
    fn hear_number(&mut self, number: u32) {
        self.last = number;
        if let Some(place) = self.kept.get_mut(self.count) {
            *place = number;
            self.count += 1;
        }
    }

    // How often the line is carried out: once at least, and MOST times at most.
    pub fn turns(&self) -> u32
        ensures { result ≤ 5000 }
    {
        self.times.clamp(1, MOST)
    }

    // What the line asks at this turn.
    pub fn at_turn(&self, turn: u32) -> Ask<'_> {
        Ask { line: self, turn }
    }
}

// A rule as a line writes it.
#[derive(Clone, Copy)]
pub struct Rule {
    pub x: u32,
    pub y: u32,
    pub c: i32,
}

// What a line asks at one turn.
#[derive(Clone, Copy)]
pub struct Ask<'a> {
    line: &'a Line,
    turn: u32,
}

impl<'a> Ask<'a> {
    // What the line asks for.
    pub fn asked(self) -> Asked {
        self.line.asked
    }

    // The list that the line names.
    pub fn list(self) -> Option<List> {
        self.line.list
    }

    // Whether the answer is written: only the last time.
    pub fn is_loud(self) -> bool {
        self.line.times <= self.turn.saturating_add(1)
    }

    // The line's numbers.
    pub fn numbers(self) -> &'a [u32] {
        &self.line.kept[..self.line.count.min(NUMBERS)]
    }

    // The number at place i, and 0 where the line has none.
    pub fn number(self, i: usize) -> u32 {
        self.numbers().get(i).copied().unwrap_or(0)
    }

    // The step number at place i, raised by the turn where the line goes onward.
    pub fn step(self, i: usize) -> u16 {
        let raised = if self.line.onward { self.turn } else { 0 };
        (self.number(i).wrapping_add(raised) % 65536) as u16
    }

    // The amount at place i, below 0 where the line has the sign for it.
    pub fn amount(self, i: usize) -> i32 {
        let size = (self.number(i) % LIMIT) as i32;
        if self.line.minus { -size } else { size }
    }

    // The rule that the line writes.
    pub fn rule(self) -> Rule {
        Rule {
            x: u32::from(self.step(0)),
            y: u32::from(self.step(1)),
            c: self.amount(2),
        }
    }

    // The third number as a cell of the gap table: below 0 where the line has the sign for it, so far below no limit where it says `none`.
    pub fn limit(self) -> i64 {
        let size = i64::from(self.number(2));
        if self.line.unlimited {
            return meaning::NO_LIMIT - size;
        }
        if self.line.minus { -size } else { size }
    }

    // The counts that the line sets.
    pub fn counts(self) -> Counts {
        Counts {
            steps: self.number(0),
            rules: self.number(1),
            marks: self.number(2),
            watched: self.number(3),
            last: self.number(4),
        }
    }

    // How many of so many places of the list are lent: all, or as many as the line says.
    fn places(self, list: List, full: usize) -> usize
        ensures { result ≤ full }
    {
        match self.line.cut {
            Some((cut, places)) if cut == list => full.min(places as usize),
            _ => full,
        }
    }

    // As many places of the list as the line lends.
    pub fn lent<T>(self, list: List, cells: &[T]) -> &[T] {
        &cells[..self.places(list, cells.len())]
    }

    // As many places of the list as the line lends, to be written.
    pub fn lend<T>(self, list: List, cells: &mut [T]) -> &mut [T] {
        let places = self.places(list, cells.len());
        &mut cells[..places]
    }
}
