// Whether a list of numbers is a negative ring that starts with a rule under its would-be number and goes on over held rules.
#![tactic(auto)]

ghost use Rattle.std.specs.Prelude.{ℕ, ◌≤◌, ◌<◌, length};
ghost use Rattle.meaning.specs.Bounds.{STEPS, RULES};
ghost use Rattle.meaning.specs.Rules.{All, Different, Refutes};
ghost use Rattle.meaning.specs.Tables.{rule_at, at};
ghost use Rattle.lent.specs.Decides.{Decides};
ghost use Rattle.lent.specs.Lent.{columns_of, held_by, BIAS};
ghost use Rattle.ringcheck.specs.Closing.{Closes, GoesOn, Walkable, FlagIn, OnceIn, first_steps, Readable, Checkable};

use lent::Rules;

// A window has so many steps: a flag for each of them is one bit of a u64.
const WINDOW: usize = 64;

// Whether number i is held and its rule's first step is the step reached.
fn goes_on(levels: &[u8], xs: &[u16], reached: usize, i: usize) -> bool
    requires in_bounds { RULES ≤ length levels.now }
    requires by_index { (i : ℕ) → held_by levels.now i → i < length xs.now }
    ensures { Decides result (GoesOn (at xs.now) (held_by levels.now) reached i) }
{
    i < meaning::RULES && lent::level_at(levels, i) != 0 && lent::number_at(xs, i) == reached
}

// Whether the numbers of the list are held and their rules lead from step y back to step x with a negative sum, with one amount more, which is given as
// amount + lent::BIAS.
fn closes(rules: Rules<'_>, levels: &[u8], x: usize, y: usize, amount: u64, list: &[u32]) -> bool
    requires in_bounds { RULES ≤ length levels.now }
    requires walkable { Walkable (held_by levels.now) rules.xs.now rules.ys.now rules.cs.now amount list.now }
    ensures { Decides result (Closes (rule_at (columns_of rules.entry)) (held_by levels.now) x y amount BIAS list.now) }
{
    let mut reached = y;
    let mut sum = amount;
    for &number in list {
        let i = number as usize;
        if !goes_on(levels, rules.xs, reached, i) {
            return false;
        }
        sum += lent::amount_at(rules.cs, i);
        reached = lent::number_at(rules.ys, i);
    }
    reached == x && sum < (list.len() as u64 + 1) * lent::BIAS
}

// The flag of the step in that window; 0 where the step lies in another one.
fn flag_in(window: usize, step: usize) -> u64
    ensures { FlagIn window step result }
{
    if step / WINDOW != window {
        return 0;
    }
    1 << (step % WINDOW)
}

// Whether no step of that window or of the next is a first step twice: step x, and those of the numbers of the list.
fn once_in(xs: &[u16], x: usize, list: &[u32], window: usize) -> bool
    requires { (window < STEPS) × All (λ i. i < length xs.now) list.now }
    ensures { Decides result (OnceIn window (first_steps xs.now x list.now)) }
{
    let next = window + 1;
    let mut met = flag_in(window, x);
    let mut beyond = flag_in(next, x);
    for &number in list {
        let step = lent::number_at(xs, number as usize);
        let flag = flag_in(window, step);
        let other = flag_in(next, step);
        if met & flag != 0 {
            return false;
        }
        if beyond & other != 0 {
            return false;
        }
        met |= flag;
        beyond |= other;
    }
    true
}

// Whether no step is a first step twice: two windows at a time are moved over the n steps, and the list is read once for them.
fn different(n: usize, xs: &[u16], x: usize, list: &[u32]) -> bool
    requires { Readable n xs.now x list.now }
    ensures { Decides result (Different (first_steps xs.now x list.now)) }
{
    for pair in 0..n.div_ceil(2 * WINDOW) {
        if !once_in(xs, x, list, 2 * pair) {
            return false;
        }
    }
    true
}

// Whether the list is a negative ring of the rule x, y, c under number m, which is free, and then of rules held. Any list may be asked about: one
// with more numbers than the n steps is no ring, since some step would be a first step twice.
pub fn is_ring(
    n: usize,
    m: usize,
    rules: Rules<'_>,
    levels: &[u8],
    x: u16,
    y: u16,
    c: i32,
    list: &[u32],
) -> bool
    requires in_bounds { RULES ≤ length levels.now }
    requires fact { held_by levels.now m → ⊥ }
    requires checkable { Checkable n (held_by levels.now) rules.xs.now rules.ys.now rules.cs.now (record { first = x; second = y; amount = c }) }
    ensures { Decides result (Refutes (rule_at (columns_of rules.entry)) (held_by levels.now) m (record { first = x; second = y; amount = c }) list.now) }
{
    let Some((&first, rest)) = list.split_first() else {
        return false;
    };
    if n < list.len() {
        return false;
    }
    if first as usize != m {
        return false;
    }
    let start = x as usize;
    closes(rules, levels, start, y as usize, lent::biased(c), rest)
        && different(n, rules.xs, start, rest)
}
