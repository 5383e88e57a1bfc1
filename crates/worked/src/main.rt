// Runs a text of cases through the eleven public calls and writes what is seen: each line of standard input as it stands, and after it what the line
// gives. A line that starts with `#` is only copied. The lists that are lent have one place more than the calls need. Its file `stdin` has the
// worked cases and the refusals of every call at their boundaries; its file `stdout` is written by hand from the paper.
//   open N | watch X Y C | add X Y C | mark | back | withdraw N | trial X Y C | consequences | last day | gap X Y    a public call; Gap's second value is the limit
//   part X Y C                           Trial, and the part that is then handed back
//   ring check X Y C of N ..             Ring check of the list of these numbers; with `two` for them, of list two
//   each X Y C                           every call but Open and part, one after the other; Withdraw of the number X, Gap of the pair X Y
//   .. LIST N places                     N places of the list are lent in this line
//   N times .. | N times onward ..       the line N times, and its last answer; onward, both steps of the rule rise by one each time
//   fill | put LIST I V                  the pattern into every place and every cell of the gap table; one place
//   put gaps X Y V | put gaps X Y none   one cell of the gap table; with V after `none` so much less than what says that there is no limit
//   counts S R M W L                     the four counts, and the last day
//   past K L | past K L N                whether all places past the counts, past K of list one and past L of list two hold the pattern; of the rules past N where
//                                        that is more, since there can be holes; of the levels past the bound, since Open writes every cell before it; of the gap
//                                        table every cell but those of two steps, and every cell where there are more steps than one yard has
//   rule I | show days I | show levels I the rule in a place, held or free; a day; a cell of the levels
//   show gaps X | show gaps X Y          a row of the gap table over the steps; one cell
#![tactic(auto)]

mod answer;
mod calls;
mod line;
mod office;
mod rules;
mod same;
mod show;
mod words;

use answer::{Given, Told};
use line::{Ask, Line};
use meaning::Counts;
use office::Office;
use same::{Same, Start};
use std::io::{Result, Write, writer};
use words::{Asked, Call};

// So many bytes of a text are read at most.
const TEXT: usize = 65536;

// The calls that a line `each` makes, in this order: every one but Open.
const EACH: [Call; 10] = [
    Call::Watch,
    Call::Mark,
    Call::Back,
    Call::Withdraw,
    Call::Add,
    Call::Trial,
    Call::Consequences,
    Call::RingCheck,
    Call::LastDay,
    Call::Gap,
];

// Makes the call, and writes what it gave where that is wanted.
fn alone<W: Write>(out: &mut W, call: Call, ask: Ask<'_>, office: &mut Office) -> Result<()> {
    let before = *office;
    let answer = office.make(call, ask);
    if !ask.is_loud() {
        return Ok(());
    }
    let lent = office.lent(ask);
    let same = Same::of(Start::default(), lent, &before);
    show::told(out, call, answer, same, lent)
}

// Makes every call but Open and part, one after the other, and writes what each gave, and whether all is as before, where that is wanted.
fn each<W: Write>(out: &mut W, ask: Ask<'_>, office: &mut Office) -> Result<()> {
    let mut sign = ':';
    for call in EACH {
        let before = *office;
        let answer = office.make(call, ask);
        if ask.is_loud() {
            let same = Same::of(Start::default(), office.lent(ask), &before);
            write!(
                out,
                "{sign} {call} {} {}",
                Told(answer),
                show::word(same.all())
            )?;
        }
        sign = ',';
    }
    Ok(())
}

// Makes the call Trial, and writes the part that is handed back after it.
fn part<W: Write>(out: &mut W, ask: Ask<'_>, office: &mut Office) -> Result<()> {
    let before = *office;
    let answer = office.trial(ask);
    let lent = office.lent(ask);
    if ask.is_loud() {
        let same = Same::of(Start::default(), lent, &before);
        let told = answer.map(|tried| Given::from(tried.moved));
        show::told(out, Call::Trial, told, same, lent)?;
    }
    show::part(out, desk::trial_part(lent.one, lent.two, answer))
}

// Where a line `past` begins to look: past the counts, past the line's first number of list one and past its second of list two; of the rules past its third number where that is more, and
// of the levels past the bound, since Open writes every cell before it.
fn past_counts(counts: Counts, ask: Ask<'_>) -> Start {
    let steps = counts.steps as usize;
    Start {
        rules: counts.rules.max(ask.number(2)) as usize,
        steps,
        levels: meaning::RULES,
        watched: counts.watched as usize,
        gaps: if steps <= meaning::YARD_STEPS {
            steps
        } else {
            0
        },
        one: ask.number(0) as usize,
        two: ask.number(1) as usize,
    }
}

// Writes whether the places past these still hold the pattern, all of them.
fn past<W: Write>(out: &mut W, ask: Ask<'_>, office: &Office) -> Result<()> {
    let counts = office.counts;
    let start = past_counts(counts, ask);
    let same = Same::of(start, office.lent(ask), &Office::unwritten(counts));
    write!(out, ": {}", show::word(same.all()))
}

// Carries out the line once.
fn step<W: Write>(out: &mut W, ask: Ask<'_>, office: &mut Office) -> Result<()> {
    match ask.asked() {
        Asked::Heading => {}
        Asked::Nothing => write!(out, ": ?")?,
        Asked::Call(call) => alone(out, call, ask, office)?,
        Asked::Part => part(out, ask, office)?,
        Asked::Each => each(out, ask, office)?,
        Asked::Counts => office.counts = ask.counts(),
        Asked::Put => office.put(ask),
        Asked::Fill => *office = Office::unwritten(office.counts),
        Asked::Past => past(out, ask, office)?,
        Asked::Rule => show::rule(out, ask, office.lent(ask))?,
        Asked::Show => show::place(out, ask, office.lent(ask))?,
    }
    Ok(())
}

// Writes the line, and after it what it gives, carried out as often as it says.
fn carried<W: Write>(out: &mut W, text: &[u8], office: &mut Office) -> Result<()> {
    out.write_all(text)?;
    let line = Line::read(text);
    for turn in 0..line.turns() {
        step(out, line.at_turn(turn), office)?;
    }
    out.write_all(b"\n")
}

// Carries out the text line by line.
fn run<W: Write>(out: &mut W, text: &[u8]) -> Result<()> {
    let mut office = Office::unwritten(Counts {
        steps: 9,
        rules: 9,
        marks: 9,
        watched: 9,
        last: 9,
    });
    for line in text.split_inclusive(|byte| *byte == b'\n') {
        carried(out, line.strip_suffix(b"\n").unwrap_or(line), &mut office)?;
    }
    Ok(())
}

fn main(rt: HostRuntime) {
    let mut text = [0; TEXT];
    let read = io::read_full(0, &mut text);
    // Where a write fails, nobody is left to be told.
    match run(&mut writer(&rt), &text[..read]) {
        Ok(()) | Err(_) => {}
    }
}
