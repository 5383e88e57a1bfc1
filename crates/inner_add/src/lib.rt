// Whether a rule fits the rules held, and Add and Trial on tables that are known to have room and to be sound. A rule that the days break asks a gain of its second step, just what
// the days lack; the gain is spread, and where it reaches the rule's first step the rule is refused, for a reason that crate shortest finds; else the days with their gains are the
// earliest plan.
#![tactic(auto)]

ghost use Rattle.std.specs.Prelude.{◌≡◌, ◌<◌, ◌≤◌, length};
ghost use Rattle.meaning.specs.Bounds.{STEPS, RULES};
ghost use Rattle.meaning.specs.Promise.{First, number_told, counts_added};
ghost use Rattle.meaning.specs.Rules.{largest};
ghost use Rattle.meaning.specs.Tables.{rule_at, at};
ghost use Rattle.lent.specs.Lent.{columns_of, columns, held_by};
ghost use Rattle.meaning.specs.Rules.{Fits, rule};
ghost use Rattle.chains.specs.Chains.{number, linked, LentChains};
ghost use Rattle.inner_add.specs.Planning.{Lack, Base, NoGains, Plannable, RulePlanned, Raised, Raisable};
ghost use Rattle.inner_add.specs.Lending.{Holdable};
ghost use Rattle.inner_add.specs.Fit.{Tells, TellsWhy, Shows, one_more};
ghost use Rattle.spread.specs.Ground.{rules};
ghost use Rattle.shortest.specs.Clauses.{ReasonIn};
ghost use Rattle.inner_add.specs.Kept.{BothRoom, Counted, hold_needs, TrialKept, AddKept};

use chains::Held;
use lent::Rules;
use meaning::{Added, Counts, Refusal};

// What the days lack for the rule x, y, c: 0 where they keep it.
fn lack(days: &[u32], x: usize, y: usize, c: i32) -> u64
    requires x_in_bounds { x < length days.now }
    requires y_in_bounds { y < length days.now }
    ensures { Lack days.now x y c result }
{
    let asked = lent::day_at(days, x) + lent::BIAS;
    let given = lent::day_at(days, y) + lent::biased(c);
    if asked <= given {
        return 0;
    }
    asked - given
}

// Plans the rule x, y, c, and says whether it fits: then the days with their gains are the earliest plan with it; else the gain asked of y, as
// much as the days lack, has reached x.
fn plan<'a>(
    n: usize,
    m: usize,
    rules: Rules<'a>,
    days: &'a [u32],
    heads: &'a [u16],
    nexts: &'a [u16],
    x: usize,
    y: usize,
    c: i32,
    gains: &mut [u64],
    by: &mut [u16],
) -> bool
    requires { Plannable n (linked nexts.now) number m rules.xs.now rules.ys.now rules.cs.now days.now heads.now nexts.now gains.old by.old x y c }
    ensures { RulePlanned n (linked nexts.now) m rules.entry.xs.now rules.entry.ys.now rules.entry.cs.now days.now gains.new by.new x y c result }
{
    let lacks = lack(days, x, y, c);
    if lacks == 0 {
        return true;
    }
    let held = Held {
        rules,
        days,
        heads,
        nexts,
    };
    spread::spread_one(n, held, y, lacks, x, gains, by);
    gains[x] == 0
}

// Writes the days with their gains into the first n places of the list, and gives back how many differ from the days.
fn write_days(n: usize, days: &[u32], gains: &[u64], list: &mut [u32]) -> u32
    requires { Raisable n days.now gains.now list.old }
    ensures { Raised n days.now gains.now list.old list.new result }
{
    let mut count = 0;
    for v in 0..n {
        let day = lent::day_at(days, v);
        let gain = gains[v];
        list[v] = (day + gain) as u32;
        if 0 < gain {
            count += 1;
        }
    }
    count
}

// Days that were raised: how many moved, and the last of them.
#[derive(Clone, Copy)]
pub struct Risen {
    pub moved: u32,
    pub last: u32,
}

// Raises the first n days by their gains.
fn raise_days(n: usize, gains: &[u64], days: &mut [u32]) -> Risen
    requires { Raisable n days.old gains.now days.old }
    ensures raised { Raised n days.old gains.now days.old days.new result.moved }
    ensures last_value { result.last ≡ largest n (at days.new) }
{
    let mut count = 0;
    let mut latest = 0;
    for v in 0..n {
        let gain = gains[v];
        let day = (lent::day_at(days, v) + gain) as u32;
        days[v] = day;
        if latest < day {
            latest = day;
        }
        if 0 < gain {
            count += 1;
        }
    }
    Risen {
        moved: count,
        last: latest,
    }
}

// Holds the rule x, y, c where it fits, and tells how the days rose, with gains and by to work in: where it does not fit they are left as its ring is found from.
fn fit_with<'a>(
    n: usize,
    m: usize,
    xs: &'a mut [u16],
    ys: &'a mut [u16],
    cs: &'a mut [i32],
    days: &'a mut [u32],
    heads: &'a [u16],
    nexts: &'a [u16],
    x: u16,
    y: u16,
    c: i32,
    last: u32,
    gains: &mut [u64],
    by: &mut [u16],
) -> Option<Risen>
    requires holdable { Holdable n (linked nexts.now) number m xs.old ys.old cs.old days.old heads.now nexts.now x y c }
    requires no_gains { NoGains n gains.old by.old }
    ensures { TellsWhy n (linked nexts.now) m xs.old ys.old cs.old days.old x y c last result
        xs.new ys.new cs.new days.new gains.new by.new }
{
    let rules = Rules { xs, ys, cs };
    if !plan(
        n, m, rules, days, heads, nexts, x as usize, y as usize, c, gains, by,
    ) {
        return None;
    }
    let risen = raise_days(n, gains, days);
    inner_watch::write_rule(xs, ys, cs, m, x, y, c);
    Some(risen)
}

// Tries the rule x, y, c on the rules on the chains over n steps, whose days have that last day. Where it fits it is held under number m, the days are brought to the
// earliest plan with it, and how they rose is told; where it does not nothing changes.
pub fn fit(
    n: usize,
    m: usize,
    xs: &mut [u16],
    ys: &mut [u16],
    cs: &mut [i32],
    days: &mut [u32],
    heads: &[u16],
    nexts: &[u16],
    x: u16,
    y: u16,
    c: i32,
    last: u32,
) -> Option<Risen>
    requires { Holdable n (linked nexts.now) number m xs.old ys.old cs.old days.old heads.now nexts.now x y c }
    ensures { Tells n (linked nexts.now) m (rule x y c) (columns xs.old ys.old cs.old) days.old last result
        (columns xs.new ys.new cs.new) days.new }
{
    // A rule that the days keep already is held before any list is cleared.
    if lack(days, x as usize, y as usize, c) == 0 {
        inner_watch::write_rule(xs, ys, cs, m, x, y, c);
        return Some(Risen { moved: 0, last });
    }
    if n <= spread::FEW {
        let mut gains = [0u64; spread::FEW];
        let mut by = [0u16; spread::FEW];
        return fit_with(
            n, m, xs, ys, cs, days, heads, nexts, x, y, c, last, &mut gains, &mut by,
        );
    }
    let mut gains = [0u64; meaning::STEPS];
    let mut by = [0u16; meaning::STEPS];
    fit_with(
        n, m, xs, ys, cs, days, heads, nexts, x, y, c, last, &mut gains, &mut by,
    )
}

// The counts with one more rule held, and the last day then.
pub fn one_more(counts: Counts, last: u32) -> Counts
    requires { counts.rules < RULES }
    ensures { result ≡ one_more last counts }
{
    Counts {
        rules: counts.rules + 1,
        last,
        ..counts
    }
}

// The first refusal of a rule that is to be held: STEP, AMOUNT, FULL.
fn hold_verdict(counts: Counts, x: u32, y: u32, c: i32) -> Result<(), Refusal>
    ensures { First (hold_needs counts (rule x y c)) (number_told result) }
{
    inner_watch::rule_verdict(counts.steps, x, y, c)?;
    if meaning::RULES <= counts.rules as usize {
        return Err(Refusal::Full);
    }
    Ok(())
}

// Writes the days with the rule x, y, c into the list where it fits, and tells how many steps would have a day different from before. Its lists are not on
// the stack while the ring is found (host/c/stack.c), so it is not inlined.
#[inline(never)]
fn show(
    n: usize,
    m: usize,
    rules: Rules<'_>,
    days: &[u32],
    heads: &[u16],
    nexts: &[u16],
    x: u16,
    y: u16,
    c: i32,
    list: &mut [u32],
) -> Option<u32>
    requires holdable { Holdable n (linked nexts.now) number m rules.xs.now rules.ys.now rules.cs.now days.now heads.now nexts.now x y c }
    requires in_bounds { STEPS ≤ length list.old }
    ensures { Shows n (linked nexts.now) m (rule x y c) (columns_of rules.entry) days.now list.old result list.new }
{
    let mut gains = [0u64; meaning::STEPS];
    let mut by = [0u16; meaning::STEPS];
    if !plan(
        n, m, rules, days, heads, nexts, x as usize, y as usize, c, &mut gains, &mut by,
    ) {
        return None;
    }
    Some(write_days(n, days, &gains, list))
}

// Why the rule x, y, c, which does not fit, is refused: writes the reason into the list and gives back its length. The chains are used up.
fn why(
    n: usize,
    m: usize,
    rules: Rules<'_>,
    days: &[u32],
    heads: &mut [u16],
    nexts: &mut [u16],
    x: u16,
    y: u16,
    c: i32,
    list: &mut [u32],
) -> u32
    requires holdable { Holdable n (linked nexts.old) number m rules.xs.now rules.ys.now rules.cs.now days.now heads.old nexts.old x y c }
    requires fact { Fits (rule_at (columns_of rules)) (linked nexts.old) (rule x y c) → ⊥ }
    requires in_bounds { RULES ≤ length nexts.old }
    requires in_bounds_2 { STEPS ≤ length list.old }
    ensures { ReasonIn (linked nexts.old) m rules.entry.xs.now rules.entry.ys.now rules.entry.cs.now x y c result list.old list.new }
{
    let k = shortest::reason(
        n, m, rules, days, heads, nexts, x as usize, y as usize, c, list,
    );
    k as u32
}

// Trial: STEP, AMOUNT, FULL in this order where the rule cannot be asked for; the days it would give, in list one, where it fits; else the reason why it does not,
// in list two. No table is written. The chains are used up.
pub fn trial<'a>(
    counts: Counts,
    rules: Rules<'a>,
    days: &'a [u32],
    levels: &[u8],
    heads: &'a mut [u16],
    nexts: &'a mut [u16],
    one: &mut [u32],
    two: &mut [u32],
    x: u32,
    y: u32,
    c: i32,
) -> Result<u32, Refusal>
    requires base { Base counts.steps (held_by levels.now) number rules.xs.now rules.ys.now rules.cs.now days.now heads.old nexts.old }
    requires lent_chains { LentChains counts.steps (held_by levels.now) rules.xs.now heads.old nexts.old }
    requires counted { Counted counts levels.now }
    requires both_room { BothRoom one.old two.old }
    ensures { TrialKept counts rules.entry.xs.now rules.entry.ys.now rules.entry.cs.now days.now levels.now one.old two.old
        x y c result one.new two.new }
{
    hold_verdict(counts, x, y, c)?;
    let n = counts.steps as usize;
    let m = lent::next_free(levels, counts.rules as usize);
    let first = x as u16;
    let second = y as u16;
    match show(n, m, rules, days, heads, nexts, first, second, c, one) {
        Some(moved) => Ok(moved),
        None => {
            let length = why(n, m, rules, days, heads, nexts, first, second, c, two);
            Err(Refusal::Conflict(length))
        }
    }
}

// Add: STEP, AMOUNT, FULL in this order where the rule cannot be asked for; where it fits it is held, under the lowest free number, and the days are brought up to date;
// else the reason why it does not is in the list. The chains are used up.
pub fn add<'a>(
    counts: Counts,
    xs: &'a mut [u16],
    ys: &'a mut [u16],
    cs: &'a mut [i32],
    days: &mut [u32],
    levels: &mut [u8],
    heads: &mut [u16],
    nexts: &mut [u16],
    list: &mut [u32],
    x: u32,
    y: u32,
    c: i32,
) -> Result<Added, Refusal>
    requires base { Base counts.steps (held_by levels.old) number xs.old ys.old cs.old days.old heads.old nexts.old }
    requires lent_chains { LentChains counts.steps (held_by levels.old) xs.old heads.old nexts.old }
    requires counted { Counted counts levels.old }
    requires in_bounds { STEPS ≤ length list.old }
    ensures { AddKept counts xs.old ys.old cs.old days.old levels.old list.old x y c result
        (counts_added counts result) xs.new ys.new cs.new days.new levels.new list.new }
{
    hold_verdict(counts, x, y, c)?;
    let n = counts.steps as usize;
    let m = lent::next_free(levels, counts.rules as usize);
    let first = x as u16;
    let second = y as u16;
    match fit(
        n,
        m,
        xs,
        ys,
        cs,
        days,
        heads,
        nexts,
        first,
        second,
        c,
        counts.last,
    ) {
        Some(risen) => {
            levels[m] = (counts.marks + 1) as u8;
            Ok(Added {
                counts: one_more(counts, risen.last),
                moved: risen.moved,
            })
        }
        None => {
            let length = why(
                n,
                m,
                Rules { xs, ys, cs },
                days,
                heads,
                nexts,
                first,
                second,
                c,
                list,
            );
            Err(Refusal::Conflict(length))
        }
    }
}
