// A whole script: its commands one after the other, and the bytes that they print. Soundness is kept from command to command, so no command pays for a check.
#![tactic(auto)]

ghost use Rattle.std.specs.Prelude.{◌≡◌, ℕ, ◌+◌, ◌≤◌, ◌<◌, length, Bool, true, false};
ghost use Rattle.meaning.specs.Bounds.{RULES, ROOM, DONE};
ghost use Rattle.text.specs.Table.{TABLE};
ghost use Rattle.write.specs.Written.{over, decimal};
ghost use Rattle.script_meaning.specs.Whole.{error_line, RunsScript};
ghost use Rattle.script_command.specs.Carrying.{in_hand, Maintained};
ghost use Rattle.script_run.specs.Reaching.{Advances};
ghost use Rattle.script_run.specs.Stepping.{Begins, Settled, GoesOn, Steps, PlaysFresh};

use meaning::{Counts, Refusal};
use script_meaning::Notes;
use text::Kind;

// How a script ended: the refusal's number, 0 where there was none, and how many bytes were written.
#[derive(Drop)]
pub struct Ran {
    pub number: u32,
    pub written: usize,
}

// How far a script was carried out: the refusal's number; the place reached; how many bytes are written; whether it only pauses there, for want of room; the counts
// and the record.
#[derive(Drop)]
pub struct Played {
    pub number: u32,
    pub at: usize,
    pub written: usize,
    pub paused: bool,
    pub counts: Counts,
    pub notes: Notes,
}

// How one command ended: the refusal's number; whether the script goes on, or pauses for want of room, and from which place; how many bytes are written so far; the
// counts and the record.
#[derive(Drop)]
struct Step {
    number: u32,
    going: bool,
    paused: bool,
    at: usize,
    to: usize,
    counts: Counts,
    notes: Notes,
}

// Writes what a refusal prints, and gives back the place past it.
fn put_error(out: &mut [u8], at: usize, number: u32) -> usize
    requires { at + 11 + length (decimal number) ≤ length out.old }
    ensures { (out.new ≡ over out.old at (error_line number)) × (result ≡ at + length (error_line number)) }
{
    let e = write::word(out, at, b"(error \"");
    let e = write::number(out, e, number);
    write::word(out, e, b"\")\n")
}

// Where the next command begins from place at on, where to of len bytes are written; nowhere at the end of the text. SHORT where fewer than ROOM bytes are left.
fn begin(
    s: &[u8],
    tab: &[u8; text::PLACES],
    at: usize,
    len: usize,
    to: usize,
) -> Result<Option<usize>, Refusal>
    requires { tab.now ≡ TABLE }
    ensures { Begins s.now at len to result }
{
    let t = text::token(s, tab, at);
    if t.kind == Kind::End {
        return Ok(None);
    }
    if len < to || len - to < meaning::ROOM {
        return Err(Refusal::Short);
    }
    Ok(Some(t.from))
}

// After a command: prints its refusal where there is one, and gives back the place past what is written.
fn settle(out: &mut [u8], to: usize, number: u32, written: usize) -> usize
    requires to_in_bounds { to + ROOM ≤ length out.old }
    requires written_bound { written ≤ ROOM }
    ensures { Settled out.old to number written out.new result }
{
    if 0 < number {
        return put_error(out, to, number);
    }
    to + written
}

// Whether the script goes on after a command: it was carried out, and was not exit.
fn goes_on(number: u32, ended: bool) -> bool
    ensures { GoesOn number ended result }
{
    if 0 < number {
        return false;
    }
    !ended
}

// One command of the script, from place at on, with to bytes written so far.
fn one(
    s: &[u8],
    tab: &[u8; text::PLACES],
    at: usize,
    row_xs: &mut [u16],
    row_ys: &mut [u16],
    row_cs: &mut [i32],
    counts: Counts,
    notes: Notes,
    xs: &mut [u16],
    ys: &mut [u16],
    cs: &mut [i32],
    days: &mut [u32],
    levels: &mut [u8],
    heads: &mut [u16],
    nexts: &mut [u16],
    kept: &mut [levels::Row],
    names: &mut [u8],
    lens: &mut [u8],
    hashes: &mut [u16],
    name_heads: &mut [u16],
    name_nexts: &mut [u16],
    out: &mut [u8],
    to: usize,
) -> Step
    requires tab_value { tab.now ≡ TABLE }
    requires in_bounds { RULES ≤ length row_xs.old }
    requires row_xs_in_bounds { length row_xs.old ≤ length row_ys.old }
    requires row_xs_in_bounds_2 { length row_xs.old ≤ length row_cs.old }
    requires maintained { Maintained notes.names (in_hand counts xs.old ys.old cs.old days.old levels.old notes names.old lens.old out.old) heads.old nexts.old kept.old hashes.old name_heads.old name_nexts.old }
    ensures steps { Steps s.now at (in_hand counts xs.old ys.old cs.old days.old levels.old notes names.old lens.old out.old) to result.number result.going result.paused result.at result.to (in_hand result.counts xs.new ys.new cs.new days.new levels.new result.notes names.new lens.new out.new) }
    ensures maintained_2 { Maintained result.notes.names (in_hand result.counts xs.new ys.new cs.new days.new levels.new result.notes names.new lens.new out.new) heads.new nexts.new kept.new hashes.new name_heads.new name_nexts.new }
{
    let from = match begin(s, tab, at, out.len(), to) {
        Ok(Some(from)) => from,
        Ok(None) => {
            return Step {
                number: meaning::DONE,
                going: false,
                paused: false,
                at,
                to,
                counts,
                notes,
            };
        }
        Err(refusal) => {
            let number = refusal.number();
            return Step {
                number,
                going: false,
                paused: number == meaning::SHORT,
                at,
                to,
                counts,
                notes,
            };
        }
    };
    let r = script_command::carry(
        &s[from..],
        tab,
        row_xs,
        row_ys,
        row_cs,
        counts,
        notes,
        xs,
        ys,
        cs,
        days,
        levels,
        heads,
        nexts,
        kept,
        names,
        lens,
        hashes,
        name_heads,
        name_nexts,
        out,
        to,
        notes.names,
    );
    let past = settle(out, to, r.number, r.written);
    let held = r.counts;
    let noted = r.notes;
    Step {
        number: r.number,
        going: goes_on(r.number, r.ended),
        paused: false,
        at: from + r.read,
        to: past,
        counts: held,
        notes: noted,
    }
}

// No public call: for `run_script` and for the program, which keep the tables and the record sound. The script's commands one after the other, from place start on, as
// far as the bytes for the answers go. Where it pauses, whoever called writes the bytes out and goes on from the place reached, with all that was lent as it was left.
pub fn advance(
    s: &[u8],
    tab: &[u8; text::PLACES],
    start: usize,
    row_xs: &mut [u16],
    row_ys: &mut [u16],
    row_cs: &mut [i32],
    counts: Counts,
    notes: Notes,
    xs: &mut [u16],
    ys: &mut [u16],
    cs: &mut [i32],
    days: &mut [u32],
    levels: &mut [u8],
    heads: &mut [u16],
    nexts: &mut [u16],
    kept: &mut [levels::Row],
    names: &mut [u8],
    lens: &mut [u8],
    hashes: &mut [u16],
    name_heads: &mut [u16],
    name_nexts: &mut [u16],
    out: &mut [u8],
) -> Played
    requires tab_value { tab.now ≡ TABLE }
    requires in_bounds { RULES ≤ length row_xs.old }
    requires row_xs_in_bounds { length row_xs.old ≤ length row_ys.old }
    requires row_xs_in_bounds_2 { length row_xs.old ≤ length row_cs.old }
    requires maintained { Maintained notes.names (in_hand counts xs.old ys.old cs.old days.old levels.old notes names.old lens.old out.old) heads.old nexts.old kept.old hashes.old name_heads.old name_nexts.old }
    ensures advances { Advances s.now start (in_hand counts xs.old ys.old cs.old days.old levels.old notes names.old lens.old out.old) result.number result.paused result.at result.written (in_hand result.counts xs.new ys.new cs.new days.new levels.new result.notes names.new lens.new out.new) }
    ensures maintained_2 { Maintained result.notes.names (in_hand result.counts xs.new ys.new cs.new days.new levels.new result.notes names.new lens.new out.new) heads.new nexts.new kept.new hashes.new name_heads.new name_nexts.new }
{
    let mut at = start;
    let mut to = 0;
    let mut held = counts;
    let mut noted = notes;
    loop {
        let step = one(
            s, tab, at, row_xs, row_ys, row_cs, held, noted, xs, ys, cs, days, levels, heads,
            nexts, kept, names, lens, hashes, name_heads, name_nexts, out, to,
        );
        if !step.going {
            let now_held = step.counts;
            let now_noted = step.notes;
            return Played {
                number: step.number,
                at: step.at,
                written: step.to,
                paused: step.paused,
                counts: now_held,
                notes: now_noted,
            };
        }
        at = step.at;
        to = step.to;
        held = step.counts;
        noted = step.notes;
    }
}

// The script on fresh tables of its own: STEPS steps on day 0, no rule and an empty record.
fn play_fresh(s: &[u8], out: &mut [u8]) -> Ran
    ensures { PlaysFresh s.now out.old result.number result.written out.new }
{
    let counts = meaning::steps_alone(script_meaning::STEPS);
    let notes = script_meaning::no_notes();
    let tab = text::TABLE;
    let mut xs = [0u16; meaning::RULES];
    let mut ys = [0u16; meaning::RULES];
    let mut cs = [0i32; meaning::RULES];
    let mut days = [0u32; meaning::STEPS];
    let mut levels = [0u8; meaning::RULES];
    let mut heads = [0u16; meaning::STEPS];
    let mut nexts = [chains::OFF; meaning::RULES];
    let mut kept = [levels::Row::empty(); levels::ROWS];
    let mut names = [0u8; names::SHELF];
    let mut lens = [0u8; meaning::STEPS];
    let mut hashes = [0u16; meaning::STEPS];
    let mut name_heads = [0u16; names::BUCKETS];
    let mut name_nexts = [0u16; meaning::STEPS];
    let mut row_xs = [0u16; meaning::RULES];
    let mut row_ys = [0u16; meaning::RULES];
    let mut row_cs = [0i32; meaning::RULES];
    let played = advance(
        s,
        &tab,
        0,
        &mut row_xs,
        &mut row_ys,
        &mut row_cs,
        counts,
        notes,
        &mut xs,
        &mut ys,
        &mut cs,
        &mut days,
        &mut levels,
        &mut heads,
        &mut nexts,
        &mut kept,
        &mut names,
        &mut lens,
        &mut hashes,
        &mut name_heads,
        &mut name_nexts,
        out,
    );
    Ran {
        number: played.number,
        written: played.written,
    }
}

// The whole script s, whose answers go into out: SIZE where it is too long, SHORT where fewer than ROOM bytes are left for a command or for SIZE.
pub fn run_script(s: &[u8], out: &mut [u8]) -> Ran
    ensures { RunsScript s.now out.old result.number result.written out.new }
{
    if s.len() <= meaning::TEXT {
        return play_fresh(s, out);
    }
    if out.len() < meaning::ROOM {
        return Ran {
            number: meaning::SHORT,
            written: 0,
        };
    }
    let past = put_error(out, 0, meaning::SIZE);
    Ran {
        number: meaning::SIZE,
        written: past,
    }
}
