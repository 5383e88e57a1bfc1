// The eleven public calls. Each takes whatever it is lent, has no condition on it, and keeps the promise that its contract states: it tests the
// room, then whether the tables are sound and the gap table is right, and then does its work.
#![tactic(auto)]

ghost use Rattle.std.specs.Prelude.{◌≤◌, ◌≡◌, length};
ghost use Rattle.meaning.specs.Bounds.{STEPS, RULES};
ghost use Rattle.meaning.specs.Promise.{First, number_told, given, given_value, given_added, counts_told, counts_added, given_verdict, given_lengths};
ghost use Rattle.lent.specs.Decides.{Decides};
ghost use Rattle.desk.specs.Entry.{Entered};
ghost use Rattle.desk.specs.Yard.{pair_needs};
ghost use Rattle.desk.specs.Part.{PartOf, TrialPart};
ghost use Rattle.lent.specs.Lent.{tables_of, of_lists, tables};
ghost use Rattle.gaps.specs.Promises.{Opens, Watches, Adds, Marks, GoesBack, Withdraws, Tries, Splits, ChecksRing, TellsLastDay, TellsGap, limited_told, limit_told};

use gaps::Gaps;
use lent::{Rules, Tables};
use meaning::{Added, Counts, Lengths, Refusal};

// Whether the list has at least k places.
fn has(k: usize, list: &[u32]) -> bool
    ensures { Decides result (k ≤ length list.now) }
{
    k <= list.len()
}

// Whether each of two lists has at least k places.
fn both_have(k: usize, one: &[u32], two: &[u32]) -> bool
    ensures { Decides result ((k ≤ length one.now) × (k ≤ length two.now)) }
{
    if !has(k, one) {
        return false;
    }
    has(k, two)
}

// The first refusal that every call but Open begins with: SHORT where a table, or another list that is lent, has too few places; DAMAGED where the tables are not
// sound, or the gap table is not right beside them; else heads and nexts are left with the chains of the rules held. `lists` says whether the other lists have room.
fn verdict(
    lists: bool,
    counts: Counts,
    tables: Tables<'_>,
    gaps: &Gaps,
    heads: &mut [u16],
    nexts: &mut [u16],
) -> Result<(), Refusal>
    requires in_bounds { STEPS ≤ length heads.old }
    requires in_bounds_2 { RULES ≤ length nexts.old }
    ensures { Entered lists (tables_of counts tables.entry) gaps.now (number_told result) heads.new nexts.new }
{
    if !lists {
        return Err(Refusal::Short);
    }
    if !sound::has_room(tables) {
        return Err(Refusal::Short);
    }
    if !sound::is_sound(counts, tables, heads, nexts) {
        return Err(Refusal::Damaged);
    }
    if !yard::is_right(counts, tables.rules, tables.days, tables.levels, gaps) {
        return Err(Refusal::Damaged);
    }
    Ok(())
}

// Open: SHORT; STEP where the count is outside 1 to STEPS; else that many steps, no rules, marks or watched rules, every place free, and day 0 for every step.
pub fn open(
    counts: Counts,
    rules: Rules<'_>,
    days: &mut [u32],
    levels: &mut [u8],
    watched: Rules<'_>,
    gaps: &mut Gaps,
    steps: u32,
) -> Result<Counts, Refusal>
    ensures { Opens counts rules.entry.xs.now rules.entry.ys.now rules.entry.cs.now days.old levels.old watched.entry.xs.now watched.entry.ys.now watched.entry.cs.now gaps.old steps (given result) (counts_told counts result) days.new levels.new gaps.new }
{
    let tables = Tables::of(
        rules.xs, rules.ys, rules.cs, days, levels, watched.xs, watched.ys, watched.cs,
    );
    if !sound::has_room(tables) {
        return Err(Refusal::Short);
    }
    if steps < 1 {
        return Err(Refusal::Step);
    }
    if meaning::STEPS < steps as usize {
        return Err(Refusal::Step);
    }
    inner_watch::clear_days(steps as usize, days);
    inner_watch::free_all(levels);
    let opened = meaning::steps_alone(steps);
    yard::remake(opened, rules, days, levels, gaps);
    Ok(opened)
}

// Watch: SHORT, DAMAGED, STEP, AMOUNT, FULL; else the rule stands at the end of the watched list.
pub fn watch(
    counts: Counts,
    rules: Rules<'_>,
    days: &[u32],
    levels: &[u8],
    wxs: &mut [u16],
    wys: &mut [u16],
    wcs: &mut [i32],
    gaps: &Gaps,
    x: u32,
    y: u32,
    c: i32,
) -> Result<Counts, Refusal>
    ensures { Watches counts rules.entry.xs.now rules.entry.ys.now rules.entry.cs.now days.now levels.now wxs.old wys.old wcs.old gaps.now x y c (given result) (counts_told counts result) wxs.new wys.new wcs.new }
{
    let mut heads = [0u16; meaning::STEPS];
    let mut nexts = [0u16; meaning::RULES];
    let tables = Tables::of(rules.xs, rules.ys, rules.cs, days, levels, wxs, wys, wcs);
    verdict(true, counts, tables, gaps, &mut heads, &mut nexts)?;
    inner_watch::watch(counts, rules, days, levels, wxs, wys, wcs, x, y, c)
}

// Mark: SHORT, DAMAGED, FULL; else one more mark is open.
pub fn mark(counts: Counts, tables: Tables<'_>, gaps: &Gaps) -> Result<Counts, Refusal>
    ensures { of_lists (Marks counts) tables.entry gaps.now (given result) (counts_told counts result) }
{
    let mut heads = [0u16; meaning::STEPS];
    let mut nexts = [0u16; meaning::RULES];
    verdict(true, counts, tables, gaps, &mut heads, &mut nexts)?;
    inner_watch::mark(counts, tables)
}

// Back: SHORT, DAMAGED, NOMARK; else the newest mark and the rules added while it was open are dropped, and the days are the earliest plan of the rest.
pub fn back(
    counts: Counts,
    rules: Rules<'_>,
    days: &mut [u32],
    levels: &mut [u8],
    watched: Rules<'_>,
    gaps: &mut Gaps,
) -> Result<Counts, Refusal>
    ensures { GoesBack counts rules.entry.xs.now rules.entry.ys.now rules.entry.cs.now days.old levels.old watched.entry.xs.now watched.entry.ys.now watched.entry.cs.now gaps.old (given result) (counts_told counts result) days.new levels.new gaps.new }
{
    let mut heads = [0u16; meaning::STEPS];
    let mut nexts = [0u16; meaning::RULES];
    let tables = Tables::of(
        rules.xs, rules.ys, rules.cs, days, levels, watched.xs, watched.ys, watched.cs,
    );
    verdict(true, counts, tables, gaps, &mut heads, &mut nexts)?;
    let left = inner_back::back(counts, rules, days, levels, watched, &mut heads, &mut nexts)?;
    yard::remake(left, rules, days, levels, gaps);
    Ok(left)
}

// Withdraw: SHORT, DAMAGED, ABSENT; else the rule under that number is no longer held, and the days are the earliest plan of the rest.
pub fn withdraw(
    counts: Counts,
    rules: Rules<'_>,
    days: &mut [u32],
    levels: &mut [u8],
    watched: Rules<'_>,
    gaps: &mut Gaps,
    number: u32,
) -> Result<Counts, Refusal>
    ensures { Withdraws counts rules.entry.xs.now rules.entry.ys.now rules.entry.cs.now days.old levels.old watched.entry.xs.now watched.entry.ys.now watched.entry.cs.now gaps.old number (given result) (counts_told counts result) days.new levels.new gaps.new }
{
    let mut heads = [0u16; meaning::STEPS];
    let mut nexts = [0u16; meaning::RULES];
    let tables = Tables::of(
        rules.xs, rules.ys, rules.cs, days, levels, watched.xs, watched.ys, watched.cs,
    );
    verdict(true, counts, tables, gaps, &mut heads, &mut nexts)?;
    let left = inner_back::withdraw(
        counts, rules, days, levels, watched, &mut heads, &mut nexts, number,
    )?;
    yard::remake(left, rules, days, levels, gaps);
    Ok(left)
}

// Add: SHORT, DAMAGED, STEP, AMOUNT, FULL, CONFLICT with the ring in the list; else the rule is held and the days are the earliest plan.
pub fn add(
    counts: Counts,
    xs: &mut [u16],
    ys: &mut [u16],
    cs: &mut [i32],
    days: &mut [u32],
    levels: &mut [u8],
    watched: Rules<'_>,
    gaps: &mut Gaps,
    list: &mut [u32],
    x: u32,
    y: u32,
    c: i32,
) -> Result<Added, Refusal>
    ensures { Adds counts xs.old ys.old cs.old days.old levels.old watched.entry.xs.now watched.entry.ys.now watched.entry.cs.now gaps.old list.old x y c (given_added result) (counts_added counts result) xs.new ys.new cs.new days.new levels.new gaps.new list.new }
{
    let mut heads = [0u16; meaning::STEPS];
    let mut nexts = [0u16; meaning::RULES];
    let tables = Tables::of(xs, ys, cs, days, levels, watched.xs, watched.ys, watched.cs);
    verdict(
        has(meaning::STEPS, list),
        counts,
        tables,
        gaps,
        &mut heads,
        &mut nexts,
    )?;
    let added = inner_add::add(
        counts, xs, ys, cs, days, levels, &mut heads, &mut nexts, list, x, y, c,
    )?;
    yard::raise(counts.steps as usize, x as usize, y as usize, c, gaps);
    Ok(added)
}

// Trial: answers as Add would, with the counts as they are, and writes to no table. List one gets the days where the rule fits, list two the ring on CONFLICT.
pub fn trial(
    counts: Counts,
    tables: Tables<'_>,
    gaps: &Gaps,
    one: &mut [u32],
    two: &mut [u32],
    x: u32,
    y: u32,
    c: i32,
) -> Result<Added, Refusal>
    ensures tries { of_lists (Tries counts) tables.entry gaps.now one.old two.old x y c (given_added result) counts one.new two.new }
    ensures counts { counts_added counts result ≡ counts }
{
    let mut heads = [0u16; meaning::STEPS];
    let mut nexts = [0u16; meaning::RULES];
    verdict(
        both_have(meaning::STEPS, one, two),
        counts,
        tables,
        gaps,
        &mut heads,
        &mut nexts,
    )?;
    let moved = inner_add::trial(
        counts,
        tables.rules,
        tables.days,
        tables.levels,
        &mut heads,
        &mut nexts,
        one,
        two,
        x,
        y,
        c,
    )?;
    Ok(Added { counts, moved })
}

// Consequences: SHORT, DAMAGED; else list one gets the watched rules that hold in every arrangement, list two those that hold in none.
pub fn consequences(
    counts: Counts,
    tables: Tables<'_>,
    gaps: &Gaps,
    one: &mut [u32],
    two: &mut [u32],
) -> Result<Lengths, Refusal>
    ensures { of_lists (Splits counts) tables.entry gaps.now one.old two.old (given_lengths result) counts one.new two.new }
{
    let mut heads = [0u16; meaning::STEPS];
    let mut nexts = [0u16; meaning::RULES];
    verdict(
        both_have(counts.watched as usize, one, two),
        counts,
        tables,
        gaps,
        &mut heads,
        &mut nexts,
    )?;
    let lengths = inner_split::consequences(
        counts,
        tables.rules.xs,
        tables.rules.ys,
        tables.rules.cs,
        tables.days,
        tables.levels,
        tables.watched.xs,
        tables.watched.ys,
        tables.watched.cs,
        &heads,
        &nexts,
        one,
        two,
    );
    Ok(lengths)
}

// Ring check: SHORT, DAMAGED, STEP, AMOUNT; else whether the list is a negative ring that starts with the rule under its would-be number and goes on over held rules.
pub fn ring_check(
    counts: Counts,
    tables: Tables<'_>,
    gaps: &Gaps,
    list: &[u32],
    x: u32,
    y: u32,
    c: i32,
) -> Result<bool, Refusal>
    ensures { of_lists (ChecksRing counts) tables.entry gaps.now list.now x y c (given_verdict result) counts }
{
    let mut heads = [0u16; meaning::STEPS];
    let mut nexts = [0u16; meaning::RULES];
    verdict(true, counts, tables, gaps, &mut heads, &mut nexts)?;
    inner_watch::rule_verdict(counts.steps, x, y, c)?;
    let next = lent::next_free(tables.levels, counts.rules as usize);
    let ring = ringcheck::is_ring(
        counts.steps as usize,
        next,
        tables.rules,
        tables.levels,
        x as u16,
        y as u16,
        c,
        list,
    );
    Ok(ring)
}

// Last day: SHORT, DAMAGED; else the largest day of the plan, which sound tables have in their counts.
pub fn last_day(counts: Counts, tables: Tables<'_>, gaps: &Gaps) -> Result<u32, Refusal>
    ensures { of_lists (TellsLastDay counts) tables.entry gaps.now (given_value result) counts }
{
    let mut heads = [0u16; meaning::STEPS];
    let mut nexts = [0u16; meaning::RULES];
    verdict(true, counts, tables, gaps, &mut heads, &mut nexts)?;
    Ok(counts.last)
}

// The first refusal of a pair that Gap is asked: YARD above the steps of one yard, STEP where x or y is no step.
fn pair_verdict(steps: u32, x: u32, y: u32) -> Result<(), Refusal>
    ensures { First (pair_needs steps x y) (number_told result) }
{
    if meaning::YARD_STEPS < steps as usize {
        return Err(Refusal::Yard);
    }
    if steps <= x {
        return Err(Refusal::Step);
    }
    if steps <= y {
        return Err(Refusal::Step);
    }
    Ok(())
}

// Gap: SHORT, DAMAGED, YARD, STEP; else the limit of the pair x, y, which the gap table has, where it has one.
pub fn gap(
    counts: Counts,
    tables: Tables<'_>,
    gaps: &Gaps,
    x: u32,
    y: u32,
) -> Result<Option<i64>, Refusal>
    ensures { of_lists (TellsGap counts) tables.entry gaps.now x y (number_told result) (limited_told result) (limit_told result) counts }
{
    let mut heads = [0u16; meaning::STEPS];
    let mut nexts = [0u16; meaning::RULES];
    verdict(true, counts, tables, gaps, &mut heads, &mut nexts)?;
    pair_verdict(counts.steps, x, y)?;
    let limit = yard::cell_at(gaps, x as usize, y as usize);
    if limit == meaning::NO_LIMIT {
        return Ok(None);
    }
    Ok(Some(limit))
}

// The list's first k places; all of it where it has no more.
fn first_places<'a>(list: &'a [u32], k: u32) -> &'a [u32]
    ensures { PartOf list.entry.ref_ptr list.now k result.ref_ptr result.now }
{
    let n = list.len();
    if n < k as usize {
        return &list[0..n];
    }
    let e = k as usize;
    &list[0..e]
}

// The filled part of one of the lists after Trial gave this answer: the days of all steps, of list one, where the rule fits; else the ring, of list two; on any other
// refusal an empty part of list two.
pub fn trial_part<'a>(one: &'a [u32], two: &'a [u32], answer: Result<Added, Refusal>) -> &'a [u32]
    ensures { TrialPart one.entry.ref_ptr two.entry.ref_ptr one.now two.now answer result.ref_ptr result.now }
{
    match answer {
        Ok(tried) => first_places(one, tried.counts.steps),
        Err(refusal) => first_places(two, refusal.ring()),
    }
}
