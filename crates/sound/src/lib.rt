// Whether the lent tables have room, and whether they are sound. The days are the earliest plan when they keep every rule and every step is
// grounded: it has day 0, or a rule with nothing to spare leads to it from a grounded step. So steps are entered in a work-list, those
// of day 0 first, and the rules of each are followed once: a broken rule, or a step left out at the end, says no.
#![tactic(auto)]

ghost use Rattle.std.specs.Prelude.{◌≡◌, ◌⊎◌, ◌≤◌, ◌<◌, length};
ghost use Rattle.meaning.specs.declared.Counts.{Counts};
ghost use Rattle.meaning.specs.Bounds.{STEPS, RULES};
ghost use Rattle.meaning.specs.Rules.{Earliest};
ghost use Rattle.meaning.specs.Tables.{ColumnsRoom, InCounts, Room, at};
ghost use Rattle.lent.specs.Decides.{Decides};
ghost use Rattle.lent.specs.Lent.{tables_of, columns_of, AllHeld};
ghost use Rattle.sound.specs.Parts.{AllBelow, AmountsIn, AllIn, DaysIn, Settled, RulesTested, Testable, Tested};
ghost use Rattle.sound.specs.Ground.{Worklist, Enterable, Stays, Comes, Seeded, Groundable, Underway, AfterStep, rule_of, on};

use chains::Held;
use lent::{Rules, Tables};
use meaning::Counts;

// Whether each of three columns has at least k places.
fn columns_have(k: usize, rules: Rules<'_>) -> bool
    ensures { Decides result (ColumnsRoom k (columns_of rules.entry)) }
{
    k <= rules.xs.len() && k <= rules.ys.len() && k <= rules.cs.len()
}

// Whether each table has room for its full bound.
pub fn has_room(tables: Tables<'_>) -> bool
    ensures { (counts : Counts) → Decides result (Room (tables_of counts tables.entry)) }
{
    columns_have(meaning::RULES, tables.rules)
        && meaning::STEPS <= tables.days.len()
        && meaning::RULES <= tables.levels.len()
        && columns_have(meaning::WATCHED, tables.watched)
}

// Whether the counts are within bounds.
fn counts_in(counts: Counts) -> bool
    ensures { Decides result (InCounts counts) }
{
    1 <= counts.steps
        && counts.steps as usize <= meaning::STEPS
        && counts.rules as usize <= meaning::RULES
        && counts.marks as usize <= meaning::MARKS
        && counts.watched as usize <= meaning::WATCHED
}

// Whether every number of the list below place m is below n.
fn steps_in(n: usize, m: usize, list: &[u16]) -> bool
    requires { m ≤ length list.now }
    ensures { Decides result (AllBelow n m list.now) }
{
    lent::all_pass(&list[..m], |number| (number as usize) < n)
}

// Whether every amount of the list below place m is within its bound.
fn amounts_in(m: usize, list: &[i32]) -> bool
    requires { m ≤ length list.now }
    ensures { Decides result (AmountsIn m list.now) }
{
    lent::all_pass(&list[..m], lent::amount_fits)
}

// Whether every rule below number m is within bounds, over n steps.
fn all_in(n: usize, m: usize, rules: Rules<'_>) -> bool
    requires { ColumnsRoom m (columns_of rules) }
    ensures { Decides result (AllIn n m rules.entry.xs.now rules.entry.ys.now rules.entry.cs.now) }
{
    steps_in(n, m, rules.xs) && steps_in(n, m, rules.ys) && amounts_in(m, rules.cs)
}

// What was found in a place.
#[derive(Clone, Copy)]
enum Place {
    // It is free, and no chain has it.
    Free,
    // The rule held there is within bounds and its level is open, and it is on its chain.
    Fine,
    // The rule held there is not so.
    Bad,
}

// Looks at place i, and puts the rule held there on its chain, where it is within bounds and its level is open.
fn settle(
    counts: Counts,
    tables: Tables<'_>,
    heads: &mut [u16],
    nexts: &mut [u16],
    i: usize,
) -> Place
    requires counts_in { InCounts counts }
    requires testable { Testable (tables_of counts tables) heads.old nexts.old }
    requires i_bound { i < RULES }
    ensures { Settled (tables_of counts tables.entry) i heads.old nexts.old result heads.new nexts.new }
{
    let level = lent::level_at(tables.levels, i);
    if level == 0 {
        nexts[i] = chains::OFF;
        return Place::Free;
    }
    if counts.marks as usize + 1 < level {
        return Place::Bad;
    }
    if !tables.rules.is_in(counts.steps as usize, i) {
        return Place::Bad;
    }
    chains::push(tables.rules.xs, heads, nexts, i);
    Place::Fine
}

// Whether every rule held is within bounds and of a level that is open, and as many are held as counted; where it is so, heads and nexts are left with their chains,
// and no other rule is on one. The walk ends at the last rule that is counted, wherever it stands, so that the places behind it are looked at together.
fn places_in(counts: Counts, tables: Tables<'_>, heads: &mut [u16], nexts: &mut [u16]) -> bool
    requires counts_in { InCounts counts }
    requires testable { Testable (tables_of counts tables) heads.old nexts.old }
    ensures { RulesTested (tables_of counts tables.entry) result heads.new nexts.new }
{
    chains::clear(counts.steps as usize, heads);
    let m = counts.rules as usize;
    let mut i: usize = 0;
    let mut seen: usize = 0;
    while seen < m {
        if meaning::RULES <= i {
            return false;
        }
        match settle(counts, tables, heads, nexts, i) {
            Place::Free => {}
            Place::Fine => seen += 1,
            Place::Bad => return false,
        }
        i += 1;
    }
    if !lent::free_from(i, tables.levels) {
        return false;
    }
    chains::off_from(i, nexts);
    true
}

// The same, where the first places are held, as many as rules are counted.
fn first_in(counts: Counts, tables: Tables<'_>, heads: &mut [u16], nexts: &mut [u16]) -> bool
    requires counts_in { InCounts counts }
    requires testable { Testable (tables_of counts tables) heads.old nexts.old }
    requires all_held { AllHeld counts.rules tables.levels.now }
    ensures { RulesTested (tables_of counts tables.entry) result heads.new nexts.new }
{
    let m = counts.rules as usize;
    let n = counts.steps as usize;
    if !lent::none_above(tables.levels, m, counts.marks as usize) {
        return false;
    }
    if !all_in(n, m, tables.rules) {
        return false;
    }
    if !lent::free_from(m, tables.levels) {
        return false;
    }
    chains::build(n, m, tables.rules.xs, heads, nexts);
    chains::off_from(m, nexts);
    true
}

// The same: in most tables the rules held are the first, and those are tested column by column.
fn rules_in(counts: Counts, tables: Tables<'_>, heads: &mut [u16], nexts: &mut [u16]) -> bool
    requires counts_in { InCounts counts }
    requires testable { Testable (tables_of counts tables) heads.old nexts.old }
    ensures { RulesTested (tables_of counts tables.entry) result heads.new nexts.new }
{
    if lent::all_held(tables.levels, counts.rules as usize) {
        first_in(counts, tables, heads, nexts)
    } else {
        places_in(counts, tables, heads, nexts)
    }
}

// The steps that are known to be grounded, as a work-list: each step's place in it plus 1, and 0 for a step that is not entered; the steps in the order in which they
// came; and how many they are. A place is a bare u16, as what holds an Option<u16> would be twice as much of the stack (host/c/stack.c).
#[derive(Drop)]
struct Queue {
    places: [u16; meaning::STEPS],
    work: [u16; meaning::STEPS],
    entered: usize,
}

impl Queue {
    // Enters step v, unless it is entered.
    fn enter(&mut self, v: usize)
        requires { Enterable v self.old }
        ensures { Stays v self.old self.new ⊎ Comes v self.old self.new }
    {
        if self.places[v] != 0 {
            return;
        }
        self.work[self.entered] = v as u16;
        self.entered += 1;
        self.places[v] = self.entered as u16;
    }

    // Enters the steps of day 0 in the empty work-list.
    fn seed(&mut self, n: usize, days: &[u32])
        requires worklist { Worklist n self.old }
        requires empty { self.old.entered ≡ 0 }
        requires n_in_bounds { n ≤ length days.now }
        requires n_bound { n ≤ STEPS }
        ensures { Seeded n days.now n self.new }
    {
        for (v, &day) in days[..n].iter().enumerate() {
            if day == 0 {
                self.enter(v);
            }
        }
    }

    // Follows the rules of step a: the second step of each that has nothing to spare is entered. It says whether the days keep them all, and stops at one that they break.
    fn follow(&mut self, n: usize, a: usize, held: Held<'_>) -> bool
        requires groundable { Groundable n held }
        requires underway { Underway n held self.old }
        requires a_lt_n { (a < n) × (1 ≤ at self.old.places a) }
        ensures { AfterStep n held.entry a self.old result self.new }
    {
        let mut link = lent::number_at(held.heads, a);
        while link != 0 {
            let i = link - 1;
            if !held.rules.kept(held.days, i) {
                return false;
            }
            if held.rules.slack(held.days, i) == 0 {
                self.enter(lent::number_at(held.rules.ys, i));
            }
            link = lent::number_at(held.nexts, i);
        }
        true
    }
}

// Whether the days are the earliest plan of the rules on the chains, over n steps.
fn is_earliest(n: usize, held: Held<'_>) -> bool
    requires { Groundable n held }
    ensures { Decides result (Earliest n (rule_of held.entry) (on held.entry) (at held.entry.days.now)) }
{
    let mut queue = Queue {
        places: [0; meaning::STEPS],
        work: [0; meaning::STEPS],
        entered: 0,
    };
    queue.seed(n, held.days);
    let mut done = 0;
    while done < queue.entered {
        let a = lent::number_at(&queue.work, done);
        if !queue.follow(n, a, held) {
            return false;
        }
        done += 1;
    }
    queue.entered == n
}

// Whether the days are the earliest plan of the rules on the chains, and the last day is the last of them.
fn days_in(counts: Counts, held: Held<'_>) -> bool
    requires { Groundable counts.steps held }
    ensures { Decides result (DaysIn counts held.entry) }
{
    let n = counts.steps as usize;
    lent::last_day(n, held.days) == counts.last && is_earliest(n, held)
}

// Whether the tables, which have room, are sound; where they are, heads and nexts are left with the chains of the rules held.
pub fn is_sound(counts: Counts, tables: Tables<'_>, heads: &mut [u16], nexts: &mut [u16]) -> bool
    requires { Testable (tables_of counts tables) heads.old nexts.old }
    ensures { Tested (tables_of counts tables.entry) result heads.new nexts.new }
{
    if !counts_in(counts) {
        return false;
    }
    if !rules_in(counts, tables, heads, nexts) {
        return false;
    }
    let held = Held {
        rules: tables.rules,
        days: tables.days,
        heads,
        nexts,
    };
    all_in(
        counts.steps as usize,
        counts.watched as usize,
        tables.watched,
    ) && days_in(counts, held)
}
