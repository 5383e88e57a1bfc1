// Back and Withdraw on tables that are known to have room and to be sound, with the chains of their rules. The rules that go are taken off the chains. The days keep
// the rules that stay, but may be later than those rules ask: so each step is asked to reach the latest day, the gains for that are spread over the rules
// that stay, and all days are brought back by the latest day. What a spread gives is the earliest plan from the asked days on, so what is left is the
// earliest plan. Where no rule goes, or only one that has days to spare, the days are the earliest plan as they are.
#![tactic(auto)]

ghost use Rattle.std.specs.Prelude.{ℕ, ◌^◌, ◌≤◌, ◌<◌, length, ◌≡◌, false};
ghost use Rattle.meaning.specs.Bounds.{RULES, MARKS};
ghost use Rattle.meaning.specs.Rules.{Earliest, largest};
ghost use Rattle.meaning.specs.Tables.{rule_at, at, taken, freed_above};
ghost use Rattle.meaning.specs.Promise.{Planned, given, counts_told};
ghost use Rattle.lent.specs.Lent.{columns_of, tables, first, held_by};
ghost use Rattle.lent.specs.Promises.{Border, GoesBack, Withdraws};
ghost use Rattle.chains.specs.Chains.{linked, LentChains, Linkable};
ghost use Rattle.inner_back.specs.Replan.{Plannable, PlanRoom, Reachable, Reaches, Bringable, Brought};
ghost use Rattle.inner_back.specs.Freeing.{Freeable, CutAt, FreedFrom, Sifted};

use chains::Held;
use lent::Rules;
use meaning::{Counts, Refusal};

// Back: NOMARK where no mark is open; else the newest mark and every rule added while it was open are dropped, and the days are the earliest plan of the rest.
pub fn back(
    counts: Counts,
    rules: Rules<'_>,
    days: &mut [u32],
    levels: &mut [u8],
    watched: Rules<'_>,
    heads: &mut [u16],
    nexts: &mut [u16],
) -> Result<Counts, Refusal>
    requires border { Border (tables counts rules.xs.now rules.ys.now rules.cs.now days.old levels.old watched.xs.now watched.ys.now watched.cs.now) }
    requires lent_chains { LentChains counts.steps (held_by levels.old) rules.xs.now heads.old nexts.old }
    ensures { GoesBack counts rules.entry.xs.now rules.entry.ys.now rules.entry.cs.now days.old levels.old watched.entry.xs.now watched.entry.ys.now watched.entry.cs.now (given result) (counts_told counts result) days.new levels.new }
{
    if counts.marks == 0 {
        return Err(Refusal::NoMark);
    }
    let open = counts.marks - 1;
    let steps = counts.steps as usize;
    let were = counts.rules as usize;
    let left = free_above(steps, open as usize, were, rules.xs, levels, heads, nexts);
    let last = replan(steps, left < were, rules, days, heads, nexts, counts.last);
    Ok(Counts {
        rules: left as u32,
        marks: open,
        last,
        ..counts
    })
}

// Withdraw: ABSENT where no rule is held under the number; else that rule is dropped, and the days are the earliest plan of the rest.
pub fn withdraw(
    counts: Counts,
    rules: Rules<'_>,
    days: &mut [u32],
    levels: &mut [u8],
    watched: Rules<'_>,
    heads: &mut [u16],
    nexts: &mut [u16],
    number: u32,
) -> Result<Counts, Refusal>
    requires border { Border (tables counts rules.xs.now rules.ys.now rules.cs.now days.old levels.old watched.xs.now watched.ys.now watched.cs.now) }
    requires lent_chains { LentChains counts.steps (held_by levels.old) rules.xs.now heads.old nexts.old }
    ensures { Withdraws counts rules.entry.xs.now rules.entry.ys.now rules.entry.cs.now days.old levels.old watched.entry.xs.now watched.entry.ys.now watched.entry.cs.now number (given result) (counts_told counts result) days.new levels.new }
{
    let i = number as usize;
    if meaning::RULES <= i {
        return Err(Refusal::Absent);
    }
    if levels[i] == 0 {
        return Err(Refusal::Absent);
    }
    let steps = counts.steps as usize;
    let spare = rules.slack(days, i);
    chains::remove(steps, rules.xs, heads, nexts, i);
    levels[i] = 0;
    let latest = replan(steps, spare < 1, rules, days, heads, nexts, counts.last);
    Ok(Counts {
        rules: counts.rules - 1,
        last: latest,
        ..counts
    })
}

// Frees every place of a level above k, of m rules held over n steps, and leaves the chains of the rules that stay. Gives back how many these are. Where those that go
// are the newest, they alone are looked at one by one.
pub fn free_above(
    n: usize,
    k: usize,
    m: usize,
    xs: &[u16],
    levels: &mut [u8],
    heads: &mut [u16],
    nexts: &mut [u16],
) -> usize
    requires freeable { Freeable n k m xs.now levels.old }
    requires lent_chains { LentChains n (held_by levels.old) xs.now heads.old nexts.old }
    ensures levels_after { levels.new ≡ freed_above RULES k levels.old }
    ensures value { result ≡ taken RULES levels.new }
    ensures lent_chains_2 { LentChains n (held_by levels.new) xs.now heads.new nexts.new }
{
    if lent::all_held(levels, m) {
        let left = cut(k, m, levels);
        if lent::none_above(levels, left, k) {
            drop_newest(left, m, n, xs, levels, heads, nexts);
            return left;
        }
    }
    sift_all(n, k, m, xs, levels, heads, nexts)
}

// Of the first m places, the number from which on all have levels above k, looked for from the top down; m where the last has no such level.
pub fn cut(k: usize, m: usize, levels: &[u8]) -> usize
    requires m_in_bounds { m ≤ length levels.now }
    requires k_bound { k ≤ MARKS }
    ensures { CutAt m k levels.now result }
{
    let mut i = m;
    while 0 < i {
        if levels[i - 1] as usize <= k + 1 {
            return i;
        }
        i -= 1;
    }
    0
}

// Takes the rules from number c up to m off their chains and frees their places.
pub fn drop_newest(
    c: usize,
    m: usize,
    n: usize,
    xs: &[u16],
    levels: &mut [u8],
    heads: &mut [u16],
    nexts: &mut [u16],
)
    requires c_le_m { c ≤ m }
    requires lent_chains { LentChains n (first m) xs.now heads.old nexts.old }
    requires by_index { (i : ℕ) → i < m → at xs.now i < n }
    requires m_in_bounds { m ≤ length xs.now }
    requires m_in_bounds_2 { m ≤ length levels.old }
    ensures freed_from { FreedFrom c m levels.old levels.new }
    ensures lent_chains_2 { LentChains n (first c) xs.now heads.new nexts.new }
{
    drop_rules(c, m, n, xs, heads, nexts);
    free_from(c, m, levels);
}

// Frees every place of a level above k, of m rules held over n steps, and makes the chains of the rules that stay. Gives back how many these are. Places are read
// until all m rules have been seen.
fn sift_all(
    n: usize,
    k: usize,
    m: usize,
    xs: &[u16],
    levels: &mut [u8],
    heads: &mut [u16],
    nexts: &mut [u16],
) -> usize
    requires freeable { Freeable n k m xs.now levels.old }
    requires lent_chains { LentChains n (held_by levels.old) xs.now heads.old nexts.old }
    ensures levels_after { levels.new ≡ freed_above RULES k levels.old }
    ensures value { result ≡ taken RULES levels.new }
    ensures lent_chains_2 { LentChains n (held_by levels.new) xs.now heads.new nexts.new }
{
    chains::clear(n, heads);
    let mut seen = 0;
    let mut left = 0;
    let mut i = 0;
    while seen < m {
        if levels[i] != 0 {
            left += sift(k, xs, levels, heads, nexts, i);
            seen += 1;
        }
        i += 1;
    }
    left
}

// Puts the rule held under number i on its chain and gives back 1, where its level is not above k; else frees its place and gives back 0.
fn sift(
    k: usize,
    xs: &[u16],
    levels: &mut [u8],
    heads: &mut [u16],
    nexts: &mut [u16],
    i: usize,
) -> usize
    requires linkable { Linkable i xs.now heads.old nexts.old }
    requires i_in_bounds { i < length levels.old }
    requires k_bound { k ≤ MARKS }
    ensures { Sifted k i xs.now levels.old heads.old nexts.old
        levels.new heads.new nexts.new result }
{
    if levels[i] as usize <= k + 1 {
        chains::push(xs, heads, nexts, i);
        return 1;
    }
    levels[i] = 0;
    nexts[i] = chains::OFF;
    0
}

// Takes the rules from number k up to m off their chains, newest first.
fn drop_rules(k: usize, m: usize, n: usize, xs: &[u16], heads: &mut [u16], nexts: &mut [u16])
    requires k_le_m { k ≤ m }
    requires lent_chains { LentChains n (first m) xs.now heads.old nexts.old }
    requires by_index { (i : ℕ) → i < m → at xs.now i < n }
    requires m_in_bounds { m ≤ length xs.now }
    ensures { LentChains n (first k) xs.now heads.new nexts.new }
{
    let mut i = m;
    while k < i {
        i -= 1;
        chains::drop_last(xs, heads, nexts, i);
    }
}

// Frees the places from c up to m.
fn free_from(c: usize, m: usize, levels: &mut [u8])
    requires c_le_m { c ≤ m }
    requires m_in_bounds { m ≤ length levels.old }
    ensures { FreedFrom c m levels.old levels.new }
{
    levels[c..m].fill(0);
}

// Brings the days of n steps, which keep every rule on the chains and have that last day, to the earliest plan of those rules. Gives back the last day then. Where
// nothing is loose the days are that plan as they are, and stay.
pub fn replan(
    n: usize,
    loose: bool,
    rules: Rules<'_>,
    days: &mut [u32],
    heads: &[u16],
    nexts: &[u16],
    last: u32,
) -> u32
    requires plannable { Plannable n (linked nexts.now) rules.xs.now rules.ys.now rules.cs.now days.old }
    requires earliest { loose ≡ false → Earliest n (rule_at (columns_of rules)) (linked nexts.now) (at days.old) }
    requires lent_chains { LentChains n (linked nexts.now) rules.xs.now heads.now nexts.now }
    requires last_value { last ≡ largest n (at days.old) }
    ensures planned { Planned n (rule_at (columns_of rules.entry)) (linked nexts.now) days.old days.new }
    ensures value { result ≡ largest n (at days.new) }
{
    if !loose {
        return last;
    }
    plan(n, rules, days, heads, nexts, last)
}

// Brings the days of n steps, which keep every rule on the chains and have that last day, to the earliest plan of those rules. Gives back the last day then.
fn plan(
    n: usize,
    rules: Rules<'_>,
    days: &mut [u32],
    heads: &[u16],
    nexts: &[u16],
    last: u32,
) -> u32
    requires plannable { Plannable n (linked nexts.now) rules.xs.now rules.ys.now rules.cs.now days.old }
    requires lent_chains { LentChains n (linked nexts.now) rules.xs.now heads.now nexts.now }
    requires last_value { last ≡ largest n (at days.old) }
    ensures planned { Planned n (rule_at (columns_of rules.entry)) (linked nexts.now) days.old days.new }
    ensures value { result ≡ largest n (at days.new) }
{
    let mut gains = [0u64; meaning::STEPS];
    let mut by = [0u16; meaning::STEPS];
    plan_with(
        n,
        rules,
        days,
        heads,
        nexts,
        last as u64,
        &mut gains,
        &mut by,
    )
}

// The same, where the lists for the gains and the rules they come by are lent too.
fn plan_with<'a>(
    n: usize,
    rules: Rules<'a>,
    days: &'a mut [u32],
    heads: &'a [u16],
    nexts: &'a [u16],
    last: u64,
    gains: &mut [u64],
    by: &mut [u16],
) -> u32
    requires plannable { Plannable n (linked nexts.now) rules.xs.now rules.ys.now rules.cs.now days.old }
    requires lent_chains { LentChains n (linked nexts.now) rules.xs.now heads.now nexts.now }
    requires last_value { (last ≡ largest n (at days.old)) × (last < 2 ^ 32) }
    requires plan_room { PlanRoom n gains.old by.old }
    ensures planned { Planned n (rule_at (columns_of rules.entry)) (linked nexts.now) days.old days.new }
    ensures value { result ≡ largest n (at days.new) }
{
    ask(n, last, days, gains);
    spread::spread(
        n,
        Held {
            rules,
            days,
            heads,
            nexts,
        },
        n,
        gains,
        by,
    );
    bring(n, last, gains, days)
}

// Gives each of the first n steps the gain that brings its day to k.
fn ask(n: usize, k: u64, days: &[u32], gains: &mut [u64])
    requires { Reachable n k days.now gains.old }
    ensures { Reaches n k days.now gains.new }
{
    for v in 0..n {
        gains[v] = k - lent::day_at(days, v);
    }
}

// Brings each of the first n days up by its gain and back by k, and gives back the last of them then.
fn bring(n: usize, k: u64, gains: &[u64], days: &mut [u32]) -> u32
    requires { Bringable n k gains.now days.old }
    ensures brought { Brought n k gains.now days.old days.new }
    ensures value { result ≡ largest n (at days.new) }
{
    let mut latest = 0;
    for v in 0..n {
        let gain = gains[v];
        let day = (lent::day_at(days, v) + gain - k) as u32;
        days[v] = day;
        if latest < day {
            latest = day;
        }
    }
    latest
}
