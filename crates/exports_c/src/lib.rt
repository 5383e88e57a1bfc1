// What C links: the functions of the crate exports under their exported names, each with the same promise.
#![tactic(auto)]

ghost use Rattle.std.specs.Prelude.{List, ℕ};
ghost use Rattle.meaning.specs.Promise.{Obeys, bare, gave};
ghost use Rattle.gaps.specs.Promises.{Opens, Watches, Adds, Marks, GoesBack, Withdraws, Tries, Splits, ChecksRing, TellsLastDay, TellsGap};
ghost use Rattle.export_record.specs.Records.{lent_by_c, start_by_c, command_by_c};
ghost use Rattle.script_meaning.specs.Whole.{RunsScript};

use export_record::Record;
use gaps::Gaps;
use meaning::Counts;

// Runs the script and writes all answers into out; `written` is how many bytes they are. It gives back the refusal's number, 0 where there was none.
#[unsafe(no_mangle)]
pub extern "C" fn dates_run_script(script: &[u8], out: &mut [u8], written: &mut usize) -> u32
    ensures { RunsScript script.now out.old result written.new out.new }
{
    exports::dates_run_script(script, out, written)
}

// Open: its number; the counts are brought up to date.
#[unsafe(no_mangle)]
pub extern "C" fn dates_open(
    counts: &mut Counts,
    xs: &[u16],
    ys: &[u16],
    cs: &[i32],
    days: &mut [u32],
    levels: &mut [u8],
    wxs: &[u16],
    wys: &[u16],
    wcs: &[i32],
    gaps: &mut Gaps,
    steps: u32,
) -> u32
    ensures { Opens counts.old xs.now ys.now cs.now days.old levels.old wxs.now wys.now wcs.now gaps.old steps (bare result) counts.new days.new levels.new gaps.new }
{
    exports::dates_open(counts, xs, ys, cs, days, levels, wxs, wys, wcs, gaps, steps)
}

// Watch: its number; the counts are brought up to date.
#[unsafe(no_mangle)]
pub extern "C" fn dates_watch(
    counts: &mut Counts,
    xs: &[u16],
    ys: &[u16],
    cs: &[i32],
    days: &[u32],
    levels: &[u8],
    wxs: &mut [u16],
    wys: &mut [u16],
    wcs: &mut [i32],
    gaps: &Gaps,
    x: u32,
    y: u32,
    c: i32,
) -> u32
    ensures { Watches counts.old xs.now ys.now cs.now days.now levels.now wxs.old wys.old wcs.old gaps.now x y c (bare result) counts.new wxs.new wys.new wcs.new }
{
    exports::dates_watch(
        counts, xs, ys, cs, days, levels, wxs, wys, wcs, gaps, x, y, c,
    )
}

// Mark: its number; the counts are brought up to date.
#[unsafe(no_mangle)]
pub extern "C" fn dates_mark(
    counts: &mut Counts,
    xs: &[u16],
    ys: &[u16],
    cs: &[i32],
    days: &[u32],
    levels: &[u8],
    wxs: &[u16],
    wys: &[u16],
    wcs: &[i32],
    gaps: &Gaps,
) -> u32
    ensures { Marks counts.old xs.now ys.now cs.now days.now levels.now wxs.now wys.now wcs.now gaps.now (bare result) counts.new }
{
    exports::dates_mark(counts, xs, ys, cs, days, levels, wxs, wys, wcs, gaps)
}

// Back: its number; the counts are brought up to date.
#[unsafe(no_mangle)]
pub extern "C" fn dates_back(
    counts: &mut Counts,
    xs: &[u16],
    ys: &[u16],
    cs: &[i32],
    days: &mut [u32],
    levels: &mut [u8],
    wxs: &[u16],
    wys: &[u16],
    wcs: &[i32],
    gaps: &mut Gaps,
) -> u32
    ensures { GoesBack counts.old xs.now ys.now cs.now days.old levels.old wxs.now wys.now wcs.now gaps.old (bare result) counts.new days.new levels.new gaps.new }
{
    exports::dates_back(counts, xs, ys, cs, days, levels, wxs, wys, wcs, gaps)
}

// Withdraw: its number; the counts are brought up to date.
#[unsafe(no_mangle)]
pub extern "C" fn dates_withdraw(
    counts: &mut Counts,
    xs: &[u16],
    ys: &[u16],
    cs: &[i32],
    days: &mut [u32],
    levels: &mut [u8],
    wxs: &[u16],
    wys: &[u16],
    wcs: &[i32],
    gaps: &mut Gaps,
    number: u32,
) -> u32
    ensures { Withdraws counts.old xs.now ys.now cs.now days.old levels.old wxs.now wys.now wcs.now gaps.old number (bare result) counts.new days.new levels.new gaps.new }
{
    exports::dates_withdraw(
        counts, xs, ys, cs, days, levels, wxs, wys, wcs, gaps, number,
    )
}

// Add: its number; `value` is how many steps moved, on CONFLICT the ring's length, else 0; the counts are brought up to date.
#[unsafe(no_mangle)]
pub extern "C" fn dates_add(
    counts: &mut Counts,
    xs: &mut [u16],
    ys: &mut [u16],
    cs: &mut [i32],
    days: &mut [u32],
    levels: &mut [u8],
    wxs: &[u16],
    wys: &[u16],
    wcs: &[i32],
    gaps: &mut Gaps,
    list: &mut [u32],
    x: u32,
    y: u32,
    c: i32,
    value: &mut u32,
) -> u32
    ensures { Adds counts.old xs.old ys.old cs.old days.old levels.old wxs.now wys.now wcs.now gaps.old list.old x y c (gave result value.new 0) counts.new xs.new ys.new cs.new days.new levels.new gaps.new list.new }
{
    exports::dates_add(
        counts, xs, ys, cs, days, levels, wxs, wys, wcs, gaps, list, x, y, c, value,
    )
}

// Trial: its number; `value` is how many steps would move, on CONFLICT the ring's length, else 0.
#[unsafe(no_mangle)]
pub extern "C" fn dates_trial(
    counts: &Counts,
    xs: &[u16],
    ys: &[u16],
    cs: &[i32],
    days: &[u32],
    levels: &[u8],
    wxs: &[u16],
    wys: &[u16],
    wcs: &[i32],
    gaps: &Gaps,
    one: &mut [u32],
    two: &mut [u32],
    x: u32,
    y: u32,
    c: i32,
    value: &mut u32,
) -> u32
    ensures { Tries counts.now xs.now ys.now cs.now days.now levels.now wxs.now wys.now wcs.now gaps.now one.old two.old x y c (gave result value.new 0) counts.now one.new two.new }
{
    exports::dates_trial(
        counts, xs, ys, cs, days, levels, wxs, wys, wcs, gaps, one, two, x, y, c, value,
    )
}

// Consequences: its number; `held` is how many watched rules hold in every arrangement, `excluded` how many in none, both 0 on a refusal.
#[unsafe(no_mangle)]
pub extern "C" fn dates_consequences(
    counts: &Counts,
    xs: &[u16],
    ys: &[u16],
    cs: &[i32],
    days: &[u32],
    levels: &[u8],
    wxs: &[u16],
    wys: &[u16],
    wcs: &[i32],
    gaps: &Gaps,
    one: &mut [u32],
    two: &mut [u32],
    held: &mut u32,
    excluded: &mut u32,
) -> u32
    ensures { Splits counts.now xs.now ys.now cs.now days.now levels.now wxs.now wys.now wcs.now gaps.now one.old two.old (gave result held.new excluded.new) counts.now one.new two.new }
{
    exports::dates_consequences(
        counts, xs, ys, cs, days, levels, wxs, wys, wcs, gaps, one, two, held, excluded,
    )
}

// Ring check: its number; `verdict` is 1 where the list is such a ring, and 0 where it is not or on a refusal.
#[unsafe(no_mangle)]
pub extern "C" fn dates_ring_check(
    counts: &Counts,
    xs: &[u16],
    ys: &[u16],
    cs: &[i32],
    days: &[u32],
    levels: &[u8],
    wxs: &[u16],
    wys: &[u16],
    wcs: &[i32],
    gaps: &Gaps,
    list: &[u32],
    x: u32,
    y: u32,
    c: i32,
    verdict: &mut u32,
) -> u32
    ensures { ChecksRing counts.now xs.now ys.now cs.now days.now levels.now wxs.now wys.now wcs.now gaps.now list.now x y c (gave result verdict.new 0) counts.now }
{
    exports::dates_ring_check(
        counts, xs, ys, cs, days, levels, wxs, wys, wcs, gaps, list, x, y, c, verdict,
    )
}

// Last day: its number; `day` is the largest day of the plan, and 0 on a refusal.
#[unsafe(no_mangle)]
pub extern "C" fn dates_last_day(
    counts: &Counts,
    xs: &[u16],
    ys: &[u16],
    cs: &[i32],
    days: &[u32],
    levels: &[u8],
    wxs: &[u16],
    wys: &[u16],
    wcs: &[i32],
    gaps: &Gaps,
    day: &mut u32,
) -> u32
    ensures { TellsLastDay counts.now xs.now ys.now cs.now days.now levels.now wxs.now wys.now wcs.now gaps.now (gave result day.new 0) counts.now }
{
    exports::dates_last_day(counts, xs, ys, cs, days, levels, wxs, wys, wcs, gaps, day)
}

// Gap: its number; `limited` is 1 and `limit` the limit of the pair x, y, or both are 0 where there is none; both are 0 on a refusal.
#[unsafe(no_mangle)]
pub extern "C" fn dates_gap(
    counts: &Counts,
    xs: &[u16],
    ys: &[u16],
    cs: &[i32],
    days: &[u32],
    levels: &[u8],
    wxs: &[u16],
    wys: &[u16],
    wcs: &[i32],
    gaps: &Gaps,
    x: u32,
    y: u32,
    limited: &mut u32,
    limit: &mut i64,
) -> u32
    ensures { TellsGap counts.now xs.now ys.now cs.now days.now levels.now wxs.now wys.now wcs.now gaps.now x y result limited.new limit.new counts.now }
{
    exports::dates_gap(
        counts, xs, ys, cs, days, levels, wxs, wys, wcs, gaps, x, y, limited, limit,
    )
}

// Start: its number; the counts are brought up to date, and the record is emptied.
#[unsafe(no_mangle)]
pub extern "C" fn dates_start(
    counts: &mut Counts,
    kept: &mut Record,
    xs: &[u16],
    ys: &[u16],
    cs: &[i32],
    days: &mut [u32],
    levels: &mut [u8],
    wxs: &[u16],
    wys: &[u16],
    wcs: &[i32],
    names: &[u8],
    lens: &[u8],
) -> u32
    ensures { (out : List ℕ) →
        Obeys
        (start_by_c (lent_by_c counts.old xs.now ys.now cs.now days.old levels.old wxs.now wys.now wcs.now kept.old names.now lens.now out))
        (lent_by_c counts.old xs.now ys.now cs.now days.old levels.old wxs.now wys.now wcs.now kept.old names.now lens.now out)
        (bare result)
        (lent_by_c counts.new xs.now ys.now cs.now days.new levels.new wxs.now wys.now wcs.now kept.new names.now lens.now out) }
{
    exports::dates_start(
        counts, kept, xs, ys, cs, days, levels, wxs, wys, wcs, names, lens,
    )
}

// Command: its number; `read` and `written` are the bytes read and the bytes written, both 0 on a refusal; the counts and the record are brought up to date.
#[unsafe(no_mangle)]
pub extern "C" fn dates_command(
    text: &[u8],
    counts: &mut Counts,
    kept: &mut Record,
    xs: &mut [u16],
    ys: &mut [u16],
    cs: &mut [i32],
    days: &mut [u32],
    levels: &mut [u8],
    wxs: &[u16],
    wys: &[u16],
    wcs: &[i32],
    names: &mut [u8],
    lens: &mut [u8],
    out: &mut [u8],
    read: &mut usize,
    written: &mut usize,
) -> u32
    ensures { Obeys
        (command_by_c text.now (lent_by_c counts.old xs.old ys.old cs.old days.old levels.old wxs.now wys.now wcs.now kept.old names.old lens.old out.old))
        (lent_by_c counts.old xs.old ys.old cs.old days.old levels.old wxs.now wys.now wcs.now kept.old names.old lens.old out.old)
        (gave result read.new written.new)
        (lent_by_c counts.new xs.new ys.new cs.new days.new levels.new wxs.now wys.now wcs.now kept.new names.new lens.new out.new) }
{
    exports::dates_command(
        text, counts, kept, xs, ys, cs, days, levels, wxs, wys, wcs, names, lens, out, read,
        written,
    )
}
