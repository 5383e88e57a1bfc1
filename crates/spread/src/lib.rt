// The least gains that keep the rules. Given days that keep the rules held and a gain for each step, a spread raises the gains as little as
// keeps every rule: the days with their gains are then the earliest plan that is not before the days with the gains at the start. Each turn
// settles the open step of largest gain and relaxes its rules; the open steps with a gain wait in a list (crate waiting).
// Which rules are held is read from their chains, by the code and by the contracts: those that nexts has on a chain.
#![tactic(auto)]

ghost use Rattle.std.specs.Prelude.{◌≡◌, ◌+◌, ◌<◌, ◌≤◌, length};
ghost use Rattle.meaning.specs.Bounds.{STEPS};
ghost use Rattle.meaning.specs.Tables.{at};
ghost use Rattle.lent.specs.Decides.{Decides};
ghost use Rattle.chains.specs.Chains.{number, linked};
ghost use Rattle.spread.specs.Ground.{Ground};
ghost use Rattle.spread.specs.Relax.{Relaxable, Relaxed};
ghost use Rattle.waiting.specs.Waiting.{Led};
ghost use Rattle.spread.specs.Clauses.{StepsRoom, GroupsRoom, Underway, Collected, RelaxedAll, Turned, Askable, AskableAlone, Begun, alone, Spread, SettledAll};
ghost use Rattle.spread.specs.Ring.{Reached, Lacks, Hops, RingIn};
ghost use Rattle.chains.specs.Held.{of_chains, of_held};

use chains::{Held, Links};
use waiting::Waiting;

// Lists for at most so many steps are short ones: clearing long ones takes more time than a spread over few steps.
pub const FEW: usize = 256;

// So many leaders have FEW steps.
const FEW_GROUPS: usize = (FEW + waiting::GROUP - 1) / waiting::GROUP;

// The steps below n with a gain, which wait; no rule is named for any of them.
fn collect<const N: usize, const G: usize>(n: usize, gains: &[u64], by: &mut [u16]) -> Waiting<N, G>
    requires steps_room { StepsRoom n N gains.now by.old }
    requires groups_room { GroupsRoom N G }
    ensures collected { Collected n (at gains.now) (at by.new) (at result.list) result.count }
    ensures led { Led gains.now result }
{
    let mut waiting = Waiting::new();
    for v in 0..n {
        if 0 < gains[v] {
            by[v] = 0;
            waiting.enter(v, gains);
        }
    }
    waiting
}

// Relaxes the rule under i, where `reach` is the day of its first step with its gain, plus lent::BIAS: where the rule asks more of its second
// step than that has, its gain is raised to just that and the rule is named for it; and where it had no gain, it waits from then on.
fn relax<const N: usize, const G: usize>(
    n: usize,
    i: usize,
    reach: u64,
    ys: &[u16],
    cs: &[i32],
    days: &[u32],
    gains: &mut [u64],
    by: &mut [u16],
    waiting: &mut Waiting<N, G>,
)
    requires relaxable { Relaxable n ys.now cs.now days.now gains.old by.old waiting.old.count i }
    requires steps_in { n ≤ N }
    requires groups_room { GroupsRoom N G }
    requires led { Led gains.old waiting.old }
    ensures relaxed { Relaxed ys.now cs.now days.now i reach
        gains.old by.old waiting.old.list waiting.old.count
        gains.new by.new waiting.new.list waiting.new.count }
    ensures led_2 { Led gains.new waiting.new }
{
    let y = lent::number_at(ys, i);
    let far = lent::day_at(days, y) + lent::amount_at(cs, i);
    let have = gains[y];
    if reach <= far + have {
        return;
    }
    gains[y] = reach - far;
    by[y] = (i + 1) as u16;
    if 0 < have {
        waiting.rise(y, gains);
        return;
    }
    waiting.enter(y, gains);
}

// Relaxes each rule of step x.
fn relax_all<const N: usize, const G: usize>(
    n: usize,
    held: Held<'_>,
    x: usize,
    gains: &mut [u64],
    by: &mut [u16],
    waiting: &mut Waiting<N, G>,
)
    requires ground { of_chains (Ground n) held }
    requires underway { Underway n gains.old by.old waiting.old }
    requires x_lt_n { x < n }
    ensures relaxed_all { of_held (RelaxedAll n) held.entry x
        gains.old by.old waiting.old.list waiting.old.count
        gains.new by.new waiting.new.list waiting.new.count }
    ensures led_2 { Led gains.new waiting.new }
{
    let reach = u64::from(held.days[x]) + gains[x] + lent::BIAS;
    for i in Links::new(held.nexts, lent::number_at(held.heads, x)) {
        relax(
            n,
            i,
            reach,
            held.rules.ys,
            held.rules.cs,
            held.days,
            gains,
            by,
            waiting,
        );
    }
}

// One turn: settles a waiting step of largest gain, of which there are some, and relaxes its rules.
fn turn<const N: usize, const G: usize>(
    n: usize,
    held: Held<'_>,
    gains: &mut [u64],
    by: &mut [u16],
    waiting: &mut Waiting<N, G>,
)
    requires ground { of_chains (Ground n) held }
    requires underway { Underway n gains.old by.old waiting.old }
    requires some { 0 < waiting.old.count }
    ensures turned { of_held (Turned n) held.entry
        gains.old by.old waiting.old.list waiting.old.count
        gains.new by.new waiting.new.list waiting.new.count }
    ensures led_2 { Led gains.new waiting.new }
{
    let x = waiting.take(gains);
    relax_all(n, held, x, gains, by, waiting);
}

// Gives step y, below n, the gain that is asked for there alone: y alone waits, and no rule is named for it.
fn begin<const N: usize, const G: usize>(
    n: usize,
    y: usize,
    gain: u64,
    gains: &mut [u64],
    by: &mut [u16],
) -> Waiting<N, G>
    requires askable_alone { AskableAlone n y gain gains.old by.old }
    requires steps_in { n ≤ N }
    requires groups_room { GroupsRoom N G }
    ensures begun { Begun n y gain gains.old gains.new by.new result.list result.count }
    ensures led { Led gains.new result }
{
    gains[y] = gain;
    by[y] = 0;
    let mut waiting = Waiting::new();
    waiting.enter(y, gains);
    waiting
}

// Whether the goal is a step below n with a gain.
fn reached(n: usize, gains: &[u64], goal: usize) -> bool
    requires { n ≤ length gains.now }
    ensures { Decides result ((goal < n) × (0 < at gains.now goal)) }
{
    goal < n && 0 < gains[goal]
}

// Turn by turn, settles the steps that wait, at first and later on, until none is left or the goal is a step with a gain.
fn settle_all<const N: usize, const G: usize>(
    n: usize,
    held: Held<'_>,
    goal: usize,
    gains: &mut [u64],
    by: &mut [u16],
    waiting: &mut Waiting<N, G>,
)
    requires ground { of_chains (Ground n) held }
    requires underway { Underway n gains.old by.old waiting.old }
    ensures { of_held (SettledAll n) held.entry goal
        gains.old by.old waiting.old.list waiting.old.count
        gains.new by.new }
{
    while !waiting.is_empty() && !reached(n, gains, goal) {
        turn(n, held, gains, by, waiting);
    }
}

// Raises the gains of n steps as little as keeps each rule held, which the days keep, where heads and nexts are the chains of the rules: the days
// with their gains are then the earliest plan that is not before the days with the gains at entry. It stops early where the goal is a step below n
// that has a gain. `by` has for each step with a gain the number, plus 1, of the rule that it came by, or 0 where it kept its gain.
// No struct of gains and by: of arrays, it needs a size of its own beside those of what waits; of two `&mut`, each promise must say that it holds the same ones.
pub fn spread(n: usize, held: Held<'_>, goal: usize, gains: &mut [u64], by: &mut [u16])
    requires ground { of_chains (Ground n) held }
    requires askable { Askable n gains.old by.old }
    ensures { of_held (Spread n) held.entry goal
        (λ v. at held.entry.days.now v + at gains.old v)
        gains.old gains.new by.new }
{
    let mut waiting = collect::<{ meaning::STEPS }, { waiting::GROUPS }>(n, gains, by);
    settle_all(n, held, goal, gains, by, &mut waiting);
}

// The same, where the gain is asked for at step y alone and no step below n has one at entry, with room for N steps that wait.
fn spread_in<const N: usize, const G: usize>(
    n: usize,
    held: Held<'_>,
    y: usize,
    gain: u64,
    goal: usize,
    gains: &mut [u64],
    by: &mut [u16],
)
    requires ground { of_chains (Ground n) held }
    requires askable_alone { AskableAlone n y gain gains.old by.old }
    requires steps_in { n ≤ N }
    requires groups_room { GroupsRoom N G }
    ensures { of_held (Spread n) held.entry goal
        (λ v. at held.entry.days.now v + alone y gain v)
        gains.old gains.new by.new }
{
    let mut waiting = begin::<N, G>(n, y, gain, gains, by);
    settle_all(n, held, goal, gains, by, &mut waiting);
}

// The same, with room for few steps where these are few: it is cleared sooner.
pub fn spread_one(
    n: usize,
    held: Held<'_>,
    y: usize,
    gain: u64,
    goal: usize,
    gains: &mut [u64],
    by: &mut [u16],
)
    requires ground { of_chains (Ground n) held }
    requires askable_alone { AskableAlone n y gain gains.old by.old }
    ensures { of_held (Spread n) held.entry goal
        (λ v. at held.entry.days.now v + alone y gain v)
        gains.old gains.new by.new }
{
    if n <= FEW {
        spread_in::<FEW, FEW_GROUPS>(n, held, y, gain, goal, gains, by);
        return;
    }
    spread_in::<{ meaning::STEPS }, { waiting::GROUPS }>(n, held, y, gain, goal, gains, by);
}

// How many hops lead back to y from x, which the gain asked for at y alone has reached: a hop is to the first step of the rule that a step came by.
fn hops(n: usize, m: usize, held: Held<'_>, gains: &[u64], by: &[u16], x: usize, y: usize) -> usize
    requires { Reached n (linked held.nexts.now) m held.rules.xs.now held.rules.ys.now held.rules.cs.now held.days.now gains.now by.now x y }
    ensures { Hops n held.entry.rules.xs.now by.now x y result }
{
    let mut v = x;
    let mut k = 0;
    // No iterator: that the walk meets y is known of these gains alone, and its steps stand in no list.
    while v != y {
        v = lent::number_at(held.rules.xs, lent::number_at(by, v) - 1);
        k += 1;
    }
    k
}

// Writes the ring of the refused rule x, y, c into the list and gives back its length: first the rule's would-be number m, then the held rules that
// lead from y to x. The gain that y has, as much as the days lack for the rule, was asked for at y alone and has reached x.
pub fn ring(
    n: usize,
    m: usize,
    held: Held<'_>,
    gains: &[u64],
    by: &[u16],
    x: usize,
    y: usize,
    c: i32,
    list: &mut [u32],
) -> usize
    requires reached { Reached n (linked held.nexts.now) m held.rules.xs.now held.rules.ys.now held.rules.cs.now held.days.now gains.now by.now x y }
    requires lacks { Lacks held.days.now gains.now x y c }
    requires n_in_bounds { n ≤ length list.old }
    ensures { RingIn (linked held.entry.nexts.now) m held.entry.rules.xs.now held.entry.rules.ys.now held.entry.rules.cs.now x y c result list.old list.new }
{
    let k = hops(n, m, held, gains, by, x, y) + 1;
    let mut v = x;
    let mut j = k;
    while v != y {
        let i = lent::number_at(by, v) - 1;
        j -= 1;
        list[j] = i as u32;
        v = lent::number_at(held.rules.xs, i);
    }
    list[0] = m as u32;
    k
}
