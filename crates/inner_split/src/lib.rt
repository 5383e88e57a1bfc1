// Consequences on tables that are known to have room and to be sound: which watched rules hold in every arrangement of the rules held, and which
// in none. One spread from each step that is a first or second step of some watched rule tells all watched rules of that step: a rule holds in
// every arrangement exactly when the gain that is asked for at its first step carries its second step as far as its amount says, and in none
// exactly when its negation holds in every arrangement.
#![tactic(auto)]

ghost use Rattle.std.specs.Prelude.{◌≡◌, ℕ, ◌+◌, ◌^◌, ◌<◌, ◌≤◌, length, Ok};
ghost use Rattle.meaning.specs.Bounds.{WATCHED};
ghost use Rattle.meaning.specs.Promise.{given_lengths};
ghost use Rattle.meaning.specs.Tables.{at};
ghost use Rattle.lent.specs.Decides.{Decides};
ghost use Rattle.lent.specs.Lent.{tables, held_by};
ghost use Rattle.lent.specs.Promises.{Border, Splits};
ghost use Rattle.chains.specs.Chains.{number, linked, LentChains};
ghost use Rattle.spread.specs.Ground.{Ground, rules};
ghost use Rattle.inner_split.specs.Carries.{GAIN, Near, Telling};
ghost use Rattle.inner_split.specs.Verdicts.{Judged, Picked};
ghost use Rattle.inner_split.specs.Clauses.{Gained, Reach, Testable, Within, Broken, ChainsBy, Watching, JudgedStep, JudgedAll};

use chains::Held;
use lent::Rules;
use meaning::{Counts, Lengths};

// The gain that is asked for at a step: more than a day and an amount come to.
const GAIN: u64 = 2147483648;

// The day of step v with its gain.
fn carried(days: &[u32], gains: &[u64], v: usize) -> u64
    requires { Gained days.now gains.now v }
    ensures { Reach days.now gains.now v result }
{
    lent::day_at(days, v) + gains[v]
}

// Whether day `far` is within what the watched rule under j leaves its first step, its second step being on its day with its gain.
fn holds(far: u64, rules: Rules<'_>, days: &[u32], gains: &[u64], j: usize) -> bool
    requires testable { Testable rules.ys.now rules.cs.now days.now gains.now j }
    requires far_bound { far < 2 ^ 33 }
    ensures { Decides result (Within far rules.entry.ys.now rules.entry.cs.now days.now gains.now j) }
{
    let reach = carried(days, gains, lent::number_at(rules.ys, j));
    far + lent::BIAS <= reach + lent::amount_at(rules.cs, j)
}

// Whether the watched rule under j is broken with its second step on day `far`, its first step being on its day with its gain.
fn breaks(far: u64, rules: Rules<'_>, days: &[u32], gains: &[u64], j: usize) -> bool
    requires testable { Testable rules.xs.now rules.cs.now days.now gains.now j }
    requires far_bound { far < 2 ^ 33 }
    ensures { Decides result (Broken far rules.entry.xs.now rules.entry.cs.now days.now gains.now j) }
{
    let reach = carried(days, gains, lent::number_at(rules.xs, j));
    far + lent::amount_at(rules.cs, j) < reach + lent::BIAS
}

// Chains of the watched rules, by the steps of one column.
#[derive(Clone, Copy)]
struct Chains<'a> {
    heads: &'a [u16],
    nexts: &'a [u16],
}

// Passes a verdict on each of w rules whose step is a, along the chain of a: what the test says of it. Every other verdict stays.
fn judge_chain<F: Fn(usize) -> bool>(
    n: usize,
    w: usize,
    steps: &[u16],
    chains: Chains<'_>,
    a: usize,
    test: F,
    verdicts: &mut [bool],
)
    requires chains_by { ChainsBy n w steps.now chains.heads.now chains.nexts.now }
    requires a_lt_n { a < n }
    requires w_in_bounds { w ≤ length verdicts.old }
    requires callable { (j : ℕ) → j < w → F.pre test j }
    ensures { Judged (λ j passes. F.post test j passes) w steps.now a verdicts.old verdicts.new }
{
    // A chain is walked by its links: it lies in lists of fixed length, since the library takes no memory.
    let mut link = lent::number_at(chains.heads, a);
    while 0 < link {
        let j = link - 1;
        verdicts[j] = test(j);
        link = lent::number_at(chains.nexts, j);
    }
}

// What Consequences go by: so many steps, the rules held, on chains by their first steps, and so many watched rules, with their chains by first steps and by second
// steps.
#[derive(Clone, Copy)]
struct Split<'a, 'c> {
    steps: usize,
    held: Held<'a>,
    count: usize,
    watched: Rules<'a>,
    firsts: Chains<'c>,
    seconds: Chains<'c>,
    ghost ground: { Ground steps (linked held.nexts.now) number held.rules.xs.now held.rules.ys.now held.rules.cs.now held.days.now held.heads.now held.nexts.now },
    ghost near: { Near steps held.days.now },
    ghost watching: { Watching steps count watched.xs.now watched.ys.now watched.cs.now firsts.heads.now firsts.nexts.now seconds.heads.now seconds.nexts.now },
}

impl Split<'_, '_> {
    // Asks for the gain at step a alone and spreads it, whatever the gains were: they then tell of each rule that leads from a whether it holds in every
    // arrangement.
    fn gains_from(self, a: usize, gains: &mut [u64], by: &mut [u16])
        requires a_lt_steps { a < self.steps }
        requires gains_room { self.steps ≤ length gains.old }
        requires by_room { self.steps ≤ length by.old }
        ensures { Telling self.entry.steps (rules self.entry.held.rules.xs.now self.entry.held.rules.ys.now self.entry.held.rules.cs.now) (linked self.entry.held.nexts.now)
            (at self.entry.held.days.now) a (at gains.new) }
    {
        let held = self.held;
        gains[..self.steps].fill(0);
        spread::spread_one(self.steps, held, a, GAIN, self.steps, gains, by);
    }

    // Passes the verdicts on the watched rules of step a: whether each whose first step it is holds in every arrangement, and whether each whose second
    // step it is holds in none. Where a is a step of no watched rule, nothing is spread and no verdict changes.
    fn judge(
        self,
        a: usize,
        gains: &mut [u64],
        by: &mut [u16],
        always: &mut [bool],
        never: &mut [bool],
    )
        requires a_lt_steps { a < self.steps }
        requires gains_room { self.steps ≤ length gains.old }
        requires by_room { self.steps ≤ length by.old }
        requires always_room { self.count ≤ length always.old }
        requires never_room { self.count ≤ length never.old }
        ensures { JudgedStep (linked self.entry.held.nexts.now) self.entry.held.rules.xs.now self.entry.held.rules.ys.now self.entry.held.rules.cs.now
            self.entry.watched.xs.now self.entry.watched.ys.now self.entry.watched.cs.now self.entry.count a always.old never.old always.new never.new }
    {
        if lent::number_at(self.firsts.heads, a) == 0
            && lent::number_at(self.seconds.heads, a) == 0
        {
            return;
        }
        self.gains_from(a, gains, by);
        let watched = self.watched;
        let days = self.held.days;
        let told: &[u64] = gains;
        let far = lent::day_at(days, a) + GAIN;
        judge_chain(
            self.steps,
            self.count,
            watched.xs,
            self.firsts,
            a,
            |j| holds(far, watched, days, told, j),
            always,
        );
        judge_chain(
            self.steps,
            self.count,
            watched.ys,
            self.seconds,
            a,
            |j| breaks(far, watched, days, told, j),
            never,
        );
    }

    // Passes both verdicts on every watched rule, step by step.
    fn judge_all(self, always: &mut [bool], never: &mut [bool])
        requires always_room { self.count ≤ length always.old }
        requires never_room { self.count ≤ length never.old }
        ensures { JudgedAll (linked self.entry.held.nexts.now) self.entry.held.rules.xs.now self.entry.held.rules.ys.now self.entry.held.rules.cs.now
            self.entry.watched.xs.now self.entry.watched.ys.now self.entry.watched.cs.now self.entry.count always.new never.new }
    {
        let mut gains = [0u64; meaning::STEPS];
        let mut by = [0u16; meaning::STEPS];
        for a in 0..self.steps {
            self.judge(a, &mut gains, &mut by, always, never);
        }
    }
}

// Puts the numbers whose verdict is yes into the list, rising, and gives back how many there are. The places past them keep what they had.
fn pick(verdicts: &[bool], list: &mut [u32]) -> usize
    requires bound { length verdicts.now ≤ WATCHED }
    requires room { length verdicts.now ≤ length list.old }
    ensures { Picked (length verdicts.now) verdicts.now list.old list.new result }
{
    // The list is lent, so its places are written one after the other and not collected.
    let mut k = 0;
    for (j, says_yes) in verdicts.iter().enumerate() {
        if *says_yes {
            list[k] = j as u32;
            k += 1;
        }
    }
    k
}

// Consequences: list one gets the numbers of the watched rules that hold in every arrangement, list two of those that hold in none; how many these are is
// told. It refuses nothing, and the counts stay.
pub fn consequences<'a>(
    counts: Counts,
    xs: &'a [u16],
    ys: &'a [u16],
    cs: &'a [i32],
    days: &'a [u32],
    levels: &[u8],
    wxs: &'a [u16],
    wys: &'a [u16],
    wcs: &'a [i32],
    heads: &'a [u16],
    nexts: &'a [u16],
    one: &mut [u32],
    two: &mut [u32],
) -> Lengths
    requires border { Border (tables counts xs.now ys.now cs.now days.now levels.now wxs.now wys.now wcs.now) }
    requires watched_in_bounds { counts.watched ≤ length one.old }
    requires watched_in_bounds_2 { counts.watched ≤ length two.old }
    requires lent_chains { LentChains counts.steps (held_by levels.now) xs.now heads.now nexts.now }
    ensures { Splits counts xs.now ys.now cs.now days.now levels.now
        wxs.now wys.now wcs.now one.old two.old (given_lengths (Ok result)) counts one.new two.new }
{
    let n = counts.steps as usize;
    let w = counts.watched as usize;
    let mut wxheads = [0u16; meaning::STEPS];
    let mut wxnexts = [0u16; meaning::WATCHED];
    chains::build(n, w, wxs, &mut wxheads, &mut wxnexts);
    let mut wyheads = [0u16; meaning::STEPS];
    let mut wynexts = [0u16; meaning::WATCHED];
    chains::build(n, w, wys, &mut wyheads, &mut wynexts);
    let rules = Rules { xs, ys, cs };
    let held = Held {
        rules,
        days,
        heads,
        nexts,
    };
    let watched = Rules {
        xs: wxs,
        ys: wys,
        cs: wcs,
    };
    let firsts = Chains {
        heads: &wxheads,
        nexts: &wxnexts,
    };
    let seconds = Chains {
        heads: &wyheads,
        nexts: &wynexts,
    };
    let split = Split {
        steps: n,
        held,
        count: w,
        watched,
        firsts,
        seconds,
    };
    let mut always = [false; meaning::WATCHED];
    let mut never = [false; meaning::WATCHED];
    split.judge_all(&mut always, &mut never);
    let in_all = pick(&always[..w], one);
    let in_none = pick(&never[..w], two);
    Lengths {
        held: in_all as u32,
        excluded: in_none as u32,
    }
}
