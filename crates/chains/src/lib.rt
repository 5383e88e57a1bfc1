// The rules of each first step, as chains of links: heads and nexts are lent, a link is a rule number plus 1, and 0 ends a chain. In nexts the place
// of a rule that is on no chain has OFF, so that nexts says by itself which rules are held.
#![tactic(auto)]

ghost use Rattle.std.specs.Prelude.{◌≡◌, ◌<◌, ◌≤◌, length};
ghost use Rattle.meaning.specs.Rules.{plus};
ghost use Rattle.meaning.specs.Tables.{at};
ghost use Rattle.chains.specs.Links.{Falls, Falls-prop};
ghost use Rattle.chains.specs.Chains.{Chained, Linkable, Empty, Pushed, Dropped, OffFrom, Buildable, linked, minus, Amendable, Descends, LastAbove, ChainsNow, Turnable};

use lent::Rules;

// In nexts the place of a rule that is on no chain has this, which is no link. A link is a bare u16, as what holds an Option<u16> would be twice as much of the stack (host/c/stack.c).
pub const OFF: u16 = 65535;

// The rules on chains, by their first steps, and the days that go with them.
#[derive(Clone, Copy)]
pub struct Held<'a> {
    pub rules: Rules<'a>,
    pub days: &'a [u32],
    pub heads: &'a [u16],
    pub nexts: &'a [u16],
}

// A walk along a chain: it gives the rules from the link on, each after the newer ones.
#[derive(Drop)]
pub struct Links<'a> {
    pub nexts: &'a [u16],
    pub link: usize,
    ghost falls: { Falls link nexts.now link } by { Falls-prop link nexts.now link },
}

impl<'a> Links<'a> {
    // From this link on.
    pub fn new(nexts: &'a [u16], link: usize) -> Links<'a>
        requires { Falls link nexts.now link }
        ensures nexts { result.nexts ≡ nexts.entry }
        ensures link { result.link ≡ link }
    {
        Links { nexts, link }
    }
}

impl<'a> Iterator for Links<'a> {
    ghost use Rattle.std.specs.Iterator.{at_most};
    ghost use Rattle.chains.specs.Walks.{Follows};

    type Item = usize;

    ghost next_gives = { Follows };

    ghost remaining = { λ s. at_most s.link };

    fn next(&mut self) -> Option<usize> {
        if self.link == 0 {
            return None;
        }
        let i = self.link - 1;
        self.link = self.nexts[i] as usize;
        Some(i)
    }
}

// Puts rule m on the chain of its first step, as the newest.
pub fn push(xs: &[u16], heads: &mut [u16], nexts: &mut [u16], m: usize)
    requires { Linkable m xs.now heads.old nexts.old }
    ensures { Pushed m xs.now heads.old nexts.old heads.new nexts.new }
{
    let a = lent::number_at(xs, m);
    nexts[m] = heads[a];
    heads[a] = (m + 1) as u16;
}

// Takes rule m, the newest of its chain, off it.
pub fn drop_last(xs: &[u16], heads: &mut [u16], nexts: &mut [u16], m: usize)
    requires { Linkable m xs.now heads.old nexts.old }
    ensures { Dropped m xs.now heads.old nexts.old heads.new nexts.new }
{
    let a = lent::number_at(xs, m);
    heads[a] = nexts[m];
    nexts[m] = OFF;
}

// Of the chain that rule j is on, which is above number i, the last rule above i.
fn last_above(xs: &[u16], nexts: &[u16], j: usize, i: usize) -> usize
    requires descends { Descends xs.now nexts.now }
    requires linked { linked nexts.now j }
    requires i_lt_j { i < j }
    ensures { LastAbove xs.now nexts.now (at xs.now j) i result }
{
    let mut k = j;
    let mut link = lent::number_at(nexts, k);
    while i + 1 < link {
        k = link - 1;
        link = lent::number_at(nexts, k);
    }
    k
}

// Puts rule m, which is on no chain, on the chain of its first step, in the order of the numbers.
pub fn insert(n: usize, xs: &[u16], heads: &mut [u16], nexts: &mut [u16], m: usize)
    requires amendable { Amendable n m xs.now heads.old nexts.old }
    requires fact { linked nexts.old m → ⊥ }
    ensures { ChainsNow n (plus (linked nexts.old) m) xs.now heads.new nexts.new }
{
    let head = lent::number_at(heads, lent::number_at(xs, m));
    if head <= m {
        push(xs, heads, nexts, m);
        return;
    }
    let j = last_above(xs, nexts, head - 1, m);
    nexts[m] = nexts[j];
    nexts[j] = (m + 1) as u16;
}

// Takes rule i off its chain.
pub fn remove(n: usize, xs: &[u16], heads: &mut [u16], nexts: &mut [u16], i: usize)
    requires amendable { Amendable n i xs.now heads.old nexts.old }
    requires linked { linked nexts.old i }
    ensures { ChainsNow n (minus (linked nexts.old) i) xs.now heads.new nexts.new }
{
    let head = lent::number_at(heads, lent::number_at(xs, i));
    if head == i + 1 {
        drop_last(xs, heads, nexts, i);
        return;
    }
    let j = last_above(xs, nexts, head - 1, i);
    nexts[j] = nexts[i];
    nexts[i] = OFF;
}

// Says of every rule from number m on that it is on no chain.
pub fn off_from(m: usize, nexts: &mut [u16])
    ensures { OffFrom m nexts.old nexts.new }
{
    let past = m.min(nexts.len());
    nexts[past..].fill(OFF);
}

// Empties the chain of every step below n.
pub fn clear(n: usize, heads: &mut [u16])
    requires { n ≤ length heads.old }
    ensures { Empty n heads.new }
{
    heads[..n].fill(0);
}

// Makes the chains of the first m rules over n steps, whatever heads and nexts held.
pub fn build(n: usize, m: usize, xs: &[u16], heads: &mut [u16], nexts: &mut [u16])
    requires { Buildable n m xs.now heads.old nexts.old }
    ensures { Chained n m xs.now heads.new nexts.new }
{
    clear(n, heads);
    for k in 0..m {
        push(xs, heads, nexts, k);
    }
}

// Makes the chains of the rules that are on chains anew, by their steps in ys, whatever heads held. Every place is looked at.
pub fn turn(n: usize, ys: &[u16], heads: &mut [u16], nexts: &mut [u16])
    requires { Turnable n ys.now heads.old nexts.old }
    ensures { ChainsNow n (linked nexts.old) ys.now heads.new nexts.new }
{
    clear(n, heads);
    for k in 0..meaning::RULES {
        if nexts[k] < OFF {
            push(ys, heads, nexts, k);
        }
    }
}
