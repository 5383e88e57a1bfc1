// The program as one function: it reads a script from standard input, whole, plays it, writes its answers and gives a status. The bytes for the answers are written out
// whenever fewer than ROOM of them are left, and at the end; so the answers may be as long as they like.
#![tactic(auto)]

ghost use Rattle.std.specs.Prelude.{◌≡◌, ◌≤◌, ◌<◌, length};
ghost use Rattle.meaning.specs.Bounds.{RULES, ROOM, TEXT};
ghost use Rattle.text.specs.Table.{TABLE};
ghost use Rattle.script_command.specs.Carrying.{in_hand, Maintained};
ghost use Rattle.program.specs.Handing.{status, number_of, status_told, Ends, Played, Answered, Runs};

use meaning::Counts;
use script_meaning::Notes;
use std::io::{Stderr, Stdin, Stdout};
use streams::Stopped;

// The statuses that C is given: the script came to its end or to `exit`; a refusal ended it; a stream failed.
pub const ENDED: u32 = 0;

pub const REFUSED: u32 = 1;

pub const FAILED: u32 = 2;

// How a script that was played ends: it came to its end or to `exit`; a refusal ended it.
#[derive(Clone, Copy, Debug, PartialEq, Eq)]
pub enum Ending {
    Ended,
    Refused,
}

// The bytes for the text: one more than a script may have, so that a longer one is told. Whoever calls lends them, so that none is cleared or touched that is not read into.
pub const READ: usize = meaning::TEXT + 1;

// The bytes for answers: ROOM for one command's, and as many again as are gathered before they are written out.
const ANSWERS: usize = meaning::ROOM + 4096;

// How a script ended that was played to its end, by the number it ended with.
fn ending_of(number: u32) -> Ending
    ensures { number_of result ≡ status number }
{
    if number == 0 {
        Ending::Ended
    } else {
        Ending::Refused
    }
}

// The status of what became of a script.
fn status_of(answered: Result<Ending, Stopped>) -> u32
    ensures { result ≡ status_told answered }
{
    match answered {
        Ok(Ending::Ended) => ENDED,
        Ok(Ending::Refused) => REFUSED,
        Err(_) => FAILED,
    }
}

// The script part after part, from its start on, on tables and a record that are known to be sound: what a part wrote is written out before the next.
fn answer(
    output: Stdout,
    error: Stderr,
    s: &[u8],
    tab: &[u8; text::PLACES],
    row_xs: &mut [u16],
    row_ys: &mut [u16],
    row_cs: &mut [i32],
    counts: Counts,
    notes: Notes,
    xs: &mut [u16],
    ys: &mut [u16],
    cs: &mut [i32],
    days: &mut [u32],
    levels: &mut [u8],
    heads: &mut [u16],
    nexts: &mut [u16],
    kept: &mut [levels::Row],
    names: &mut [u8],
    lens: &mut [u8],
    hashes: &mut [u16],
    name_heads: &mut [u16],
    name_nexts: &mut [u16],
    out: &mut [u8],
) -> Result<Ending, Stopped>
    requires tab_value { tab.now ≡ TABLE }
    requires in_bounds { RULES ≤ length row_xs.old }
    requires row_xs_in_bounds { length row_xs.old ≤ length row_ys.old }
    requires row_xs_in_bounds_2 { length row_xs.old ≤ length row_cs.old }
    requires maintained { Maintained notes.names (in_hand counts xs.old ys.old cs.old days.old levels.old notes names.old lens.old out.old) heads.old nexts.old kept.old hashes.old name_heads.old name_nexts.old }
    requires in_bounds_2 { ROOM ≤ length out.old }
    ensures { Ends s.now 0 (in_hand counts xs.old ys.old cs.old days.old levels.old notes names.old lens.old out.old) (status_told result) }
{
    let mut at = 0;
    let mut held = counts;
    let mut noted = notes;
    loop {
        let part = script_run::advance(
            s, tab, at, row_xs, row_ys, row_cs, held, noted, xs, ys, cs, days, levels, heads,
            nexts, kept, names, lens, hashes, name_heads, name_nexts, out,
        );
        // No `?`: what is answered here is a line that must-fail/cut_told_as_whole.edit changes.
        if let Err(stopped) = streams::put(output, error, &out[..part.written]) {
            return Err(stopped);
        }
        if !part.paused {
            return Ok(ending_of(part.number));
        }
        at = part.at;
        held = part.counts;
        noted = part.notes;
    }
}

// The script on fresh tables: STEPS steps on day 0, no rule and an empty record.
fn play(output: Stdout, error: Stderr, s: &[u8]) -> Result<Ending, Stopped>
    ensures { Played s.now (status_told result) }
{
    let tab = text::TABLE;
    let counts = meaning::steps_alone(script_meaning::STEPS);
    let notes = script_meaning::no_notes();
    let mut xs = [0u16; meaning::RULES];
    let mut ys = [0u16; meaning::RULES];
    let mut cs = [0i32; meaning::RULES];
    let mut days = [0u32; meaning::STEPS];
    let mut levels = [0u8; meaning::RULES];
    let mut heads = [0u16; meaning::STEPS];
    let mut nexts = [chains::OFF; meaning::RULES];
    let mut kept = [levels::Row::empty(); levels::ROWS];
    let mut names = [0u8; names::SHELF];
    let mut lens = [0u8; meaning::STEPS];
    let mut hashes = [0u16; meaning::STEPS];
    let mut name_heads = [0u16; names::BUCKETS];
    let mut name_nexts = [0u16; meaning::STEPS];
    let mut out = [0u8; ANSWERS];
    let mut row_xs = [0u16; meaning::RULES];
    let mut row_ys = [0u16; meaning::RULES];
    let mut row_cs = [0i32; meaning::RULES];
    answer(
        output,
        error,
        s,
        &tab,
        &mut row_xs,
        &mut row_ys,
        &mut row_cs,
        counts,
        notes,
        &mut xs,
        &mut ys,
        &mut cs,
        &mut days,
        &mut levels,
        &mut heads,
        &mut nexts,
        &mut kept,
        &mut names,
        &mut lens,
        &mut hashes,
        &mut name_heads,
        &mut name_nexts,
        &mut out,
    )
}

// The script on fresh tables, which are made only where it has a byte.
fn play_any(output: Stdout, error: Stderr, s: &[u8]) -> Result<Ending, Stopped>
    ensures { Played s.now (status_told result) }
{
    if s.is_empty() {
        return Ok(Ending::Ended);
    }
    play(output, error, s)
}

// A script that is too long: its only answer is the refusal.
fn refuse(output: Stdout, error: Stderr, s: &[u8]) -> Result<Ending, Stopped>
    requires { TEXT < length s.now }
    ensures { Answered s.now (status_told result) }
{
    let mut out = [0u8; meaning::ROOM];
    let ran = script_run::run_script(s, &mut out);
    streams::put(output, error, &out[..ran.written])?;
    Ok(Ending::Refused)
}

// The answers to a text that was read whole.
fn answer_text(output: Stdout, error: Stderr, s: &[u8]) -> Result<Ending, Stopped>
    ensures { Answered s.now (status_told result) }
{
    if s.len() <= meaning::TEXT {
        return play_any(output, error, s);
    }
    refuse(output, error, s)
}

// Reads standard input into the bytes that are lent, READ at least, and answers it.
fn read_and_answer(
    input: Stdin,
    output: Stdout,
    error: Stderr,
    text: &mut [u8],
) -> Result<Ending, Stopped>
    ensures { Runs text.new (status_told result) }
{
    let n = streams::fill(input, error, text, 0)?;
    answer_text(output, error, &text[..n])
}

// Reads standard input into the bytes that are lent, plays the script and writes its answers to standard output. Where a read fails, nothing is carried out; where a write
// fails, nothing more is. What was written is a first part of the answers, and all of them where the status is ENDED or REFUSED. With fewer than READ bytes lent it fails.
pub fn dates_main(input: Stdin, output: Stdout, error: Stderr, text: &mut [u8]) -> u32
    ensures { Runs text.new result }
{
    if text.len() < READ {
        return FAILED;
    }
    status_of(read_and_answer(input, output, error, text))
}
