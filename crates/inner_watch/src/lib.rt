// The calls on tables that are known to have room and to be sound. They are not for callers outside: the public calls check their tables and
// then call these.
#![tactic(auto)]

ghost use Rattle.std.specs.Prelude.{◌≡◌, ◌≤◌, length, []};
ghost use Rattle.meaning.specs.Bounds.{RULES};
ghost use Rattle.inner_watch.specs.Cleared.{Cleared, Freed};
ghost use Rattle.meaning.specs.Promise.{First, number_told, given, counts_told};
ghost use Rattle.meaning.specs.Calls.{rule_needs};
ghost use Rattle.meaning.specs.Tables.{put};
ghost use Rattle.lent.specs.Lent.{tables_of, of_lists, columns, tables, Placed};
ghost use Rattle.meaning.specs.Rules.{rule};
ghost use Rattle.lent.specs.Promises.{Border, Watches, Marks};

use lent::{Rules, Tables};
use meaning::{Counts, Refusal};

// The first refusal of a rule handed to a call, over so many steps: STEP, AMOUNT. Steps are handed over as u32, so that none is cut short on
// the way: one that is not below the count is STEP, however large.
pub fn rule_verdict(steps: u32, x: u32, y: u32, c: i32) -> Result<(), Refusal>
    ensures { First (rule_needs steps (rule x y c) []) (number_told result) }
{
    if steps <= x {
        return Err(Refusal::Step);
    }
    if steps <= y {
        return Err(Refusal::Step);
    }
    if !lent::amount_fits(c) {
        return Err(Refusal::Amount);
    }
    Ok(())
}

// Writes the rule x, y, c under number i.
pub fn write_rule(xs: &mut [u16], ys: &mut [u16], cs: &mut [i32], i: usize, x: u16, y: u16, c: i32)
    requires { Placed xs.old ys.old cs.old i }
    ensures { columns xs.new ys.new cs.new ≡ put (columns xs.old ys.old cs.old) i (rule x y c) }
{
    xs[i] = x;
    ys[i] = y;
    cs[i] = c;
}

// Watch: STEP or AMOUNT where the rule is not within bounds, FULL where no place is left; else the rule stands at the end of the watched list.
pub fn watch(
    counts: Counts,
    rules: Rules<'_>,
    days: &[u32],
    levels: &[u8],
    wxs: &mut [u16],
    wys: &mut [u16],
    wcs: &mut [i32],
    x: u32,
    y: u32,
    c: i32,
) -> Result<Counts, Refusal>
    requires { Border (tables counts rules.xs.now rules.ys.now rules.cs.now days.now levels.now wxs.old wys.old wcs.old) }
    ensures { Watches counts rules.entry.xs.now rules.entry.ys.now rules.entry.cs.now days.now levels.now wxs.old wys.old wcs.old x y c (given result) (counts_told counts result) wxs.new wys.new wcs.new }
{
    rule_verdict(counts.steps, x, y, c)?;
    let at = counts.watched as usize;
    if meaning::WATCHED <= at {
        return Err(Refusal::Full);
    }
    write_rule(wxs, wys, wcs, at, x as u16, y as u16, c);
    Ok(Counts {
        watched: counts.watched + 1,
        ..counts
    })
}

// Mark: FULL where no more may be open; else one more mark is.
pub fn mark(counts: Counts, tables: Tables<'_>) -> Result<Counts, Refusal>
    requires { Border (tables_of counts tables) }
    ensures { of_lists (Marks counts) tables.entry (given result) (counts_told counts result) }
{
    if meaning::MARKS <= counts.marks as usize {
        return Err(Refusal::Full);
    }
    Ok(Counts {
        marks: counts.marks + 1,
        ..counts
    })
}

// Sets the first n days to 0.
pub fn clear_days(n: usize, days: &mut [u32])
    requires { n ≤ length days.old }
    ensures { Cleared n days.old days.new }
{
    days[..n].fill(0);
}

// Frees every place: the first RULES cells are 0.
pub fn free_all(levels: &mut [u8])
    requires { RULES ≤ length levels.old }
    ensures { Freed RULES levels.old levels.new }
{
    levels[..meaning::RULES].fill(0);
}
