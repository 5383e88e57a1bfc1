// Reading the lent tables, and the exact test of one rule. An amount c is read as c + BIAS, which is never below 0, so that
// every sum and every comparison of days and amounts is one of u64.
#![tactic(auto)]

ghost use Rattle.std.specs.Prelude.{◌≡◌, ◌≤◌, ◌<◌, length, get_or, pos};
ghost use Rattle.meaning.specs.Rules.{InAmount, InBounds, largest};
ghost use Rattle.meaning.specs.Bounds.{RULES, MARKS};
ghost use Rattle.meaning.specs.Tables.{rule_at, at, taken, lowest_free};
ghost use Rattle.lent.specs.Decides.{Decides};
ghost use Rattle.lent.specs.Passing.{EachTested};
ghost use Rattle.meaning.specs.declared.Counts.{Counts};
ghost use Rattle.lent.specs.Lent.{tables_of, tables, columns, AllHeld, NoneAbove, FreeFrom, Biased, KeptAt, Placed, Limited, Dated, Limit, Spare};

// An amount is counted from so far below 0; no i32 is lower.
pub const BIAS: u64 = 2147483648;

const SIGNED_BIAS: i64 = BIAS as i64;

// The columns of a table of rules: rule i is that of the steps xs[i] and ys[i] with the amount cs[i].
#[derive(Clone, Copy)]
pub struct Rules<'a> {
    pub xs: &'a [u16],
    pub ys: &'a [u16],
    pub cs: &'a [i32],
}

// All lists that are lent as the tables: the rules, the days, the level of each rule and the watched rules.
#[derive(Clone, Copy)]
pub struct Tables<'a> {
    pub rules: Rules<'a>,
    pub days: &'a [u32],
    pub levels: &'a [u8],
    pub watched: Rules<'a>,
}

// The number at place i: a step, or a link of a chain. Each reader of a cell widens it once for all that read cells: a cast at each place, proved each time, is no plainer.
pub fn number_at(list: &[u16], i: usize) -> usize
    requires { i < length list.now }
    ensures { result ≡ get_or list.now i 0 }
{
    list[i] as usize
}

// The day at place i.
pub fn day_at(list: &[u32], i: usize) -> u64
    requires { i < length list.now }
    ensures { result ≡ get_or list.now i 0 }
{
    list[i] as u64
}

// The level's cell at place i, which is 0 where the place is free.
pub fn level_at(levels: &[u8], i: usize) -> usize
    requires { i < length levels.now }
    ensures { result ≡ at levels.now i }
{
    levels[i] as usize
}

// Whether the test says yes to every cell. Every cell is looked at, so that many are at a time.
#[inline]
pub fn all_pass<T: Copy, F: Fn(T) -> bool>(cells: &[T], test: F) -> bool
    requires { F.IsAlwaysCallable test }
    ensures { EachTested (F.post test) cells.now (length cells.now) result }
{
    let mut all = true;
    for &cell in cells {
        if !test(cell) {
            all = false;
        }
    }
    all
}

// Whether every place below m is held.
pub fn all_held(levels: &[u8], m: usize) -> bool
    requires { m ≤ length levels.now }
    ensures { Decides result (AllHeld m levels.now) }
{
    all_pass(&levels[..m], |cell| cell != 0)
}

// Whether no place below m has a level above k.
pub fn none_above(levels: &[u8], m: usize, k: usize) -> bool
    requires m_in_bounds { m ≤ length levels.now }
    requires k_bound { k ≤ MARKS }
    ensures { Decides result (NoneAbove m k levels.now) }
{
    let highest = (k + 1) as u8;
    all_pass(&levels[..m], |cell| cell <= highest)
}

// Whether every place from number m on is free.
pub fn free_from(m: usize, levels: &[u8]) -> bool
    requires { RULES ≤ length levels.now }
    ensures { Decides result (FreeFrom m levels.now) }
{
    let past = m.min(meaning::RULES);
    all_pass(&levels[past..meaning::RULES], |cell| cell == 0)
}

// The lowest free place, RULES where none is, where so many rules are held: where these are the first, it is the one behind them; else it is looked for.
pub fn next_free(levels: &[u8], rules: usize) -> usize
    requires in_bounds { RULES ≤ length levels.now }
    requires rules_value { rules ≡ taken RULES levels.now }
    ensures { result ≡ lowest_free RULES levels.now }
{
    if all_held(levels, rules) {
        return rules;
    }
    levels[..meaning::RULES]
        .iter()
        .position(|&cell| cell == 0)
        .unwrap_or(meaning::RULES)
}

// The last day: the largest of the first n days, and 0 where n is 0. Every cell is looked at, so that many are at a time.
pub fn last_day(n: usize, days: &[u32]) -> u32
    requires { n ≤ length days.now }
    ensures { result ≡ largest n (at days.now) }
{
    days[..n].iter().fold(0, |latest, &day| latest.max(day))
}

// The amount c as c + BIAS.
pub fn biased(c: i32) -> u64
    ensures { Biased c result }
{
    (c as i64 + SIGNED_BIAS) as u64
}

// The amount c at place i, as c + BIAS.
pub fn amount_at(list: &[i32], i: usize) -> u64
    requires { i < length list.now }
    ensures { Biased (get_or list.now i (pos 0)) result }
{
    biased(list[i])
}

// Whether the amount is within its bound.
pub fn amount_fits(c: i32) -> bool
    ensures { Decides result (InAmount c) }
{
    -meaning::LARGEST <= c && c <= meaning::LARGEST
}

// Whether the amount at place i is within its bound.
pub fn amount_in(list: &[i32], i: usize) -> bool
    requires { i < length list.now }
    ensures { Decides result (InAmount (get_or list.now i (pos 0))) }
{
    amount_fits(list[i])
}

impl<'a> Tables<'a> {
    // These lists, each as it is lent.
    pub fn of(
        xs: &'a [u16],
        ys: &'a [u16],
        cs: &'a [i32],
        days: &'a [u32],
        levels: &'a [u8],
        wxs: &'a [u16],
        wys: &'a [u16],
        wcs: &'a [i32],
    ) -> Tables<'a>
        ensures { (counts : Counts) → tables_of counts result ≡ tables counts xs.now ys.now cs.now days.now levels.now wxs.now wys.now wcs.now }
    {
        let rules = Rules { xs, ys, cs };
        let watched = Rules {
            xs: wxs,
            ys: wys,
            cs: wcs,
        };
        Tables {
            rules,
            days,
            levels,
            watched,
        }
    }
}

impl Rules<'_> {
    // Whether the rule under i is within bounds, over n steps.
    pub fn is_in(self, n: usize, i: usize) -> bool
        requires { Placed self.xs.now self.ys.now self.cs.now i }
        ensures { Decides result (InBounds n (rule_at (columns self.entry.xs.now self.entry.ys.now self.entry.cs.now) i)) }
    {
        number_at(self.xs, i) < n && number_at(self.ys, i) < n && amount_in(self.cs, i)
    }

    // The latest day that the rule under i leaves its first step, as that day + BIAS: the day of the second step plus the amount.
    pub fn latest(self, days: &[u32], i: usize) -> u64
        requires { Limited self.ys.now self.cs.now days.now i }
        ensures { Limit self.entry.ys.now self.entry.cs.now days.now i result }
    {
        day_at(days, number_at(self.ys, i)) + amount_at(self.cs, i)
    }

    // Whether the days keep the rule under i.
    pub fn kept(self, days: &[u32], i: usize) -> bool
        requires { Dated self.xs.now self.ys.now self.cs.now days.now i }
        ensures { Decides result (KeptAt self.entry.xs.now self.entry.ys.now self.entry.cs.now days.now i) }
    {
        day_at(days, number_at(self.xs, i)) + BIAS <= self.latest(days, i)
    }

    // How many days the rule under i, which the days keep, has to spare.
    pub fn slack(self, days: &[u32], i: usize) -> u64
        requires dated { Dated self.xs.now self.ys.now self.cs.now days.now i }
        requires kept_at { KeptAt self.xs.now self.ys.now self.cs.now days.now i }
        ensures { Spare self.entry.xs.now self.entry.ys.now self.entry.cs.now days.now i result }
    {
        self.latest(days, i) - (day_at(days, number_at(self.xs, i)) + BIAS)
    }
}
