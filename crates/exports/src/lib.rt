// What others call: the whole script, and every call. Each call is over records that C lends, gives its number back, and its values through references. The crate exports_c
// exports them.
#![tactic(auto)]

ghost use Rattle.std.specs.Prelude.{◌≡◌, List, ℕ};
ghost use Rattle.meaning.specs.Promise.{Obeys, bare, gave, number_told, value_told, counts_told};
ghost use Rattle.gaps.specs.Promises.{Opens, Watches, Adds, Marks, GoesBack, Withdraws, Tries, Splits, ChecksRing, TellsLastDay, TellsGap};
ghost use Rattle.export_record.specs.Records.{lent_by_c, start_by_c, command_by_c};
ghost use Rattle.script_meaning.specs.Whole.{RunsScript};

use export_record::Record;
use gaps::Gaps;
use lent::{Rules, Tables};
use meaning::{Counts, Refusal};

// Runs the script and writes all answers into out; `written` is how many bytes they are. It gives back the refusal's number, 0 where there was none.
pub fn dates_run_script(script: &[u8], out: &mut [u8], written: &mut usize) -> u32
    ensures { RunsScript script.now out.old result written.new out.new }
{
    let ran = script_run::run_script(script, out);
    *written = ran.written;
    ran.number
}

// The number of an answer that gives counts back, which are stored.
fn stored(answer: Result<Counts, Refusal>, counts: &mut Counts) -> u32
    ensures number { result ≡ number_told answer }
    ensures counts { counts.new ≡ counts_told counts.old answer }
{
    match answer {
        Ok(after) => {
            *counts = after;
            meaning::DONE
        }
        Err(refusal) => refusal.number(),
    }
}

// The number of an answer, and what it tells into `value`: on CONFLICT the ring's length, on any other refusal 0.
fn told(answer: Result<u32, Refusal>, value: &mut u32) -> u32
    ensures number { result ≡ number_told answer }
    ensures value { value.new ≡ value_told answer }
{
    match answer {
        Ok(number) => {
            *value = number;
            meaning::DONE
        }
        Err(refusal) => {
            *value = refusal.ring();
            refusal.number()
        }
    }
}

// Open: its number; the counts are brought up to date.
pub fn dates_open<'a>(
    counts: &mut Counts,
    xs: &'a [u16],
    ys: &'a [u16],
    cs: &'a [i32],
    days: &'a mut [u32],
    levels: &'a mut [u8],
    wxs: &'a [u16],
    wys: &'a [u16],
    wcs: &'a [i32],
    gaps: &mut Gaps,
    steps: u32,
) -> u32
    ensures { Opens counts.old xs.now ys.now cs.now days.old levels.old wxs.now wys.now wcs.now gaps.old steps (bare result) counts.new days.new levels.new gaps.new }
{
    let rules = Rules { xs, ys, cs };
    let watched = Rules {
        xs: wxs,
        ys: wys,
        cs: wcs,
    };
    let answer = desk::open(*counts, rules, days, levels, watched, gaps, steps);
    stored(answer, counts)
}

// Watch: its number; the counts are brought up to date.
pub fn dates_watch<'a>(
    counts: &mut Counts,
    xs: &'a [u16],
    ys: &'a [u16],
    cs: &'a [i32],
    days: &'a [u32],
    levels: &'a [u8],
    wxs: &'a mut [u16],
    wys: &'a mut [u16],
    wcs: &'a mut [i32],
    gaps: &Gaps,
    x: u32,
    y: u32,
    c: i32,
) -> u32
    ensures { Watches counts.old xs.now ys.now cs.now days.now levels.now wxs.old wys.old wcs.old gaps.now x y c (bare result) counts.new wxs.new wys.new wcs.new }
{
    let rules = Rules { xs, ys, cs };
    let answer = desk::watch(*counts, rules, days, levels, wxs, wys, wcs, gaps, x, y, c);
    stored(answer, counts)
}

// Mark: its number; the counts are brought up to date.
pub fn dates_mark<'a>(
    counts: &mut Counts,
    xs: &'a [u16],
    ys: &'a [u16],
    cs: &'a [i32],
    days: &'a [u32],
    levels: &'a [u8],
    wxs: &'a [u16],
    wys: &'a [u16],
    wcs: &'a [i32],
    gaps: &Gaps,
) -> u32
    ensures { Marks counts.old xs.now ys.now cs.now days.now levels.now wxs.now wys.now wcs.now gaps.now (bare result) counts.new }
{
    let rules = Rules { xs, ys, cs };
    let watched = Rules {
        xs: wxs,
        ys: wys,
        cs: wcs,
    };
    let tables = Tables {
        rules,
        days,
        levels,
        watched,
    };
    let answer = desk::mark(*counts, tables, gaps);
    stored(answer, counts)
}

// Back: its number; the counts are brought up to date.
pub fn dates_back<'a>(
    counts: &mut Counts,
    xs: &'a [u16],
    ys: &'a [u16],
    cs: &'a [i32],
    days: &'a mut [u32],
    levels: &'a mut [u8],
    wxs: &'a [u16],
    wys: &'a [u16],
    wcs: &'a [i32],
    gaps: &mut Gaps,
) -> u32
    ensures { GoesBack counts.old xs.now ys.now cs.now days.old levels.old wxs.now wys.now wcs.now gaps.old (bare result) counts.new days.new levels.new gaps.new }
{
    let rules = Rules { xs, ys, cs };
    let watched = Rules {
        xs: wxs,
        ys: wys,
        cs: wcs,
    };
    let answer = desk::back(*counts, rules, days, levels, watched, gaps);
    stored(answer, counts)
}

// Withdraw: its number; the counts are brought up to date.
pub fn dates_withdraw<'a>(
    counts: &mut Counts,
    xs: &'a [u16],
    ys: &'a [u16],
    cs: &'a [i32],
    days: &'a mut [u32],
    levels: &'a mut [u8],
    wxs: &'a [u16],
    wys: &'a [u16],
    wcs: &'a [i32],
    gaps: &mut Gaps,
    number: u32,
) -> u32
    ensures { Withdraws counts.old xs.now ys.now cs.now days.old levels.old wxs.now wys.now wcs.now gaps.old number (bare result) counts.new days.new levels.new gaps.new }
{
    let rules = Rules { xs, ys, cs };
    let watched = Rules {
        xs: wxs,
        ys: wys,
        cs: wcs,
    };
    let answer = desk::withdraw(*counts, rules, days, levels, watched, gaps, number);
    stored(answer, counts)
}

// Add: its number; `value` is how many steps moved, on CONFLICT the ring's length, else 0; the counts are brought up to date.
pub fn dates_add<'a>(
    counts: &mut Counts,
    xs: &'a mut [u16],
    ys: &'a mut [u16],
    cs: &'a mut [i32],
    days: &'a mut [u32],
    levels: &'a mut [u8],
    wxs: &'a [u16],
    wys: &'a [u16],
    wcs: &'a [i32],
    gaps: &mut Gaps,
    list: &mut [u32],
    x: u32,
    y: u32,
    c: i32,
    value: &mut u32,
) -> u32
    ensures { Adds counts.old xs.old ys.old cs.old days.old levels.old wxs.now wys.now wcs.now gaps.old list.old x y c (gave result value.new 0) counts.new xs.new ys.new cs.new days.new levels.new gaps.new list.new }
{
    let watched = Rules {
        xs: wxs,
        ys: wys,
        cs: wcs,
    };
    let answer = desk::add(
        *counts, xs, ys, cs, days, levels, watched, gaps, list, x, y, c,
    );
    match answer {
        Ok(added) => {
            *counts = added.counts;
            *value = added.moved;
            meaning::DONE
        }
        Err(refusal) => {
            *value = refusal.ring();
            refusal.number()
        }
    }
}

// Trial: its number; `value` is how many steps would move, on CONFLICT the ring's length, else 0.
pub fn dates_trial<'a>(
    counts: &Counts,
    xs: &'a [u16],
    ys: &'a [u16],
    cs: &'a [i32],
    days: &'a [u32],
    levels: &'a [u8],
    wxs: &'a [u16],
    wys: &'a [u16],
    wcs: &'a [i32],
    gaps: &Gaps,
    one: &mut [u32],
    two: &mut [u32],
    x: u32,
    y: u32,
    c: i32,
    value: &mut u32,
) -> u32
    ensures { Tries counts.now xs.now ys.now cs.now days.now levels.now wxs.now wys.now wcs.now gaps.now one.old two.old x y c (gave result value.new 0) counts.now one.new two.new }
{
    let rules = Rules { xs, ys, cs };
    let watched = Rules {
        xs: wxs,
        ys: wys,
        cs: wcs,
    };
    let tables = Tables {
        rules,
        days,
        levels,
        watched,
    };
    let answer = desk::trial(*counts, tables, gaps, one, two, x, y, c);
    match answer {
        Ok(tried) => {
            *value = tried.moved;
            meaning::DONE
        }
        Err(refusal) => {
            *value = refusal.ring();
            refusal.number()
        }
    }
}

// Consequences: its number; `held` is how many watched rules hold in every arrangement, `excluded` how many in none, both 0 on a refusal.
pub fn dates_consequences<'a>(
    counts: &Counts,
    xs: &'a [u16],
    ys: &'a [u16],
    cs: &'a [i32],
    days: &'a [u32],
    levels: &'a [u8],
    wxs: &'a [u16],
    wys: &'a [u16],
    wcs: &'a [i32],
    gaps: &Gaps,
    one: &mut [u32],
    two: &mut [u32],
    held: &mut u32,
    excluded: &mut u32,
) -> u32
    ensures { Splits counts.now xs.now ys.now cs.now days.now levels.now wxs.now wys.now wcs.now gaps.now one.old two.old (gave result held.new excluded.new) counts.now one.new two.new }
{
    let rules = Rules { xs, ys, cs };
    let watched = Rules {
        xs: wxs,
        ys: wys,
        cs: wcs,
    };
    let tables = Tables {
        rules,
        days,
        levels,
        watched,
    };
    let split = desk::consequences(*counts, tables, gaps, one, two);
    match split {
        Ok(lengths) => {
            *held = lengths.held;
            *excluded = lengths.excluded;
            meaning::DONE
        }
        Err(refusal) => {
            *held = 0;
            *excluded = 0;
            refusal.number()
        }
    }
}

// Ring check: its number; `verdict` is 1 where the list is such a ring, and 0 where it is not or on a refusal.
pub fn dates_ring_check<'a>(
    counts: &Counts,
    xs: &'a [u16],
    ys: &'a [u16],
    cs: &'a [i32],
    days: &'a [u32],
    levels: &'a [u8],
    wxs: &'a [u16],
    wys: &'a [u16],
    wcs: &'a [i32],
    gaps: &Gaps,
    list: &[u32],
    x: u32,
    y: u32,
    c: i32,
    verdict: &mut u32,
) -> u32
    ensures { ChecksRing counts.now xs.now ys.now cs.now days.now levels.now wxs.now wys.now wcs.now gaps.now list.now x y c (gave result verdict.new 0) counts.now }
{
    let rules = Rules { xs, ys, cs };
    let watched = Rules {
        xs: wxs,
        ys: wys,
        cs: wcs,
    };
    let tables = Tables {
        rules,
        days,
        levels,
        watched,
    };
    let checked = desk::ring_check(*counts, tables, gaps, list, x, y, c);
    match checked {
        Ok(ring) => {
            *verdict = ring as u32;
            meaning::DONE
        }
        Err(refusal) => {
            *verdict = 0;
            refusal.number()
        }
    }
}

// Last day: its number; `day` is the largest day of the plan, and 0 on a refusal.
pub fn dates_last_day<'a>(
    counts: &Counts,
    xs: &'a [u16],
    ys: &'a [u16],
    cs: &'a [i32],
    days: &'a [u32],
    levels: &'a [u8],
    wxs: &'a [u16],
    wys: &'a [u16],
    wcs: &'a [i32],
    gaps: &Gaps,
    day: &mut u32,
) -> u32
    ensures { TellsLastDay counts.now xs.now ys.now cs.now days.now levels.now wxs.now wys.now wcs.now gaps.now (gave result day.new 0) counts.now }
{
    let rules = Rules { xs, ys, cs };
    let watched = Rules {
        xs: wxs,
        ys: wys,
        cs: wcs,
    };
    let tables = Tables {
        rules,
        days,
        levels,
        watched,
    };
    let largest = desk::last_day(*counts, tables, gaps);
    told(largest, day)
}

// Gap: its number; `limited` is 1 and `limit` the limit of the pair x, y, or both are 0 where there is none; both are 0 on a refusal.
pub fn dates_gap<'a>(
    counts: &Counts,
    xs: &'a [u16],
    ys: &'a [u16],
    cs: &'a [i32],
    days: &'a [u32],
    levels: &'a [u8],
    wxs: &'a [u16],
    wys: &'a [u16],
    wcs: &'a [i32],
    gaps: &Gaps,
    x: u32,
    y: u32,
    limited: &mut u32,
    limit: &mut i64,
) -> u32
    ensures { TellsGap counts.now xs.now ys.now cs.now days.now levels.now wxs.now wys.now wcs.now gaps.now x y result limited.new limit.new counts.now }
{
    let rules = Rules { xs, ys, cs };
    let watched = Rules {
        xs: wxs,
        ys: wys,
        cs: wcs,
    };
    let tables = Tables {
        rules,
        days,
        levels,
        watched,
    };
    let between = desk::gap(*counts, tables, gaps, x, y);
    match between {
        Ok(Some(days_between)) => {
            *limited = 1;
            *limit = days_between;
            meaning::DONE
        }
        Ok(None) => {
            *limited = 0;
            *limit = 0;
            meaning::DONE
        }
        Err(refusal) => {
            *limited = 0;
            *limit = 0;
            refusal.number()
        }
    }
}

// Start: its number; the counts are brought up to date, and the record is emptied.
pub fn dates_start(
    counts: &mut Counts,
    kept: &mut Record,
    xs: &[u16],
    ys: &[u16],
    cs: &[i32],
    days: &mut [u32],
    levels: &mut [u8],
    wxs: &[u16],
    wys: &[u16],
    wcs: &[i32],
    names: &[u8],
    lens: &[u8],
) -> u32
    ensures { (out : List ℕ) →
        Obeys
        (start_by_c (lent_by_c counts.old xs.now ys.now cs.now days.old levels.old wxs.now wys.now wcs.now kept.old names.now lens.now out))
        (lent_by_c counts.old xs.now ys.now cs.now days.old levels.old wxs.now wys.now wcs.now kept.old names.now lens.now out)
        (bare result)
        (lent_by_c counts.new xs.now ys.now cs.now days.new levels.new wxs.now wys.now wcs.now kept.new names.now lens.now out) }
{
    let out = export_record::start(
        *counts, *kept, xs, ys, cs, days, levels, wxs, wys, wcs, names, lens,
    );
    *counts = out.counts;
    *kept = out.kept;
    out.number
}

// Command: its number; `read` and `written` are the bytes read and the bytes written, both 0 on a refusal; the counts and the record are brought up to date.
pub fn dates_command(
    text: &[u8],
    counts: &mut Counts,
    kept: &mut Record,
    xs: &mut [u16],
    ys: &mut [u16],
    cs: &mut [i32],
    days: &mut [u32],
    levels: &mut [u8],
    wxs: &[u16],
    wys: &[u16],
    wcs: &[i32],
    names: &mut [u8],
    lens: &mut [u8],
    out: &mut [u8],
    read: &mut usize,
    written: &mut usize,
) -> u32
    ensures { Obeys
        (command_by_c text.now (lent_by_c counts.old xs.old ys.old cs.old days.old levels.old wxs.now wys.now wcs.now kept.old names.old lens.old out.old))
        (lent_by_c counts.old xs.old ys.old cs.old days.old levels.old wxs.now wys.now wcs.now kept.old names.old lens.old out.old)
        (gave result read.new written.new)
        (lent_by_c counts.new xs.new ys.new cs.new days.new levels.new wxs.now wys.now wcs.now kept.new names.new lens.new out.new) }
{
    let reply = export_record::command(
        text, *counts, *kept, xs, ys, cs, days, levels, wxs, wys, wcs, names, lens, out, read,
        written,
    );
    *counts = reply.counts;
    *kept = reply.kept;
    reply.number
}
