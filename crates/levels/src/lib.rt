// Levels of a script: setting and dropping several marks at once. Where the days of an open mark are kept a pop copies them, else it plans afresh.
// Days are kept in rows, which the marks use in turn: mark k has row k % ROWS, and a later mark takes it over.
#![tactic(auto)]

ghost use Rattle.std.specs.Prelude.{◌≡◌, true, false, ◌+◌, ◌-◌, ◌≤◌, ◌<◌, length, MatchOption};
ghost use Rattle.meaning.specs.Bounds.{STEPS, RULES, MARKS};
ghost use Rattle.meaning.specs.Rules.{Earliest, largest};
ghost use Rattle.meaning.specs.Tables.{rule_at, at, taken, freed_above};
ghost use Rattle.meaning.specs.Promise.{Planned};
ghost use Rattle.lent.specs.Lent.{columns, held_by};
ghost use Rattle.lent.specs.Idle.{unwatched};
ghost use Rattle.lent.specs.Promises.{Border};
ghost use Rattle.spread.specs.Ground.{rules};
ghost use Rattle.chains.specs.Chains.{linked, LentChains};
ghost use Rattle.inner_back.specs.Replan.{Plannable};
ghost use Rattle.inner_back.specs.Freeing.{Freeable};
ghost use Rattle.levels.specs.Levels.{more_marks, row_of, Popped, InOrder, Named, KeptFor, KeptDays, KeepsDays, Keeps};

use lent::Rules;
use meaning::Counts;

// So many rows of kept days are used in turn.
pub const ROWS: usize = 4;

// The days that are kept of a mark, if of any, and the last of them.
#[derive(Clone, Copy)]
pub struct Row {
    pub mark: Option<usize>,
    pub days: [u32; meaning::STEPS],
    pub last: u32,
}

impl Row {
    // A row that keeps the days of no mark.
    pub fn empty() -> Row
        ensures { result.mark ≡ None }
    {
        Row {
            mark: None,
            days: [0; meaning::STEPS],
            last: 0,
        }
    }

    // Keeps these days, the last of which is `last`, as those of the mark.
    fn keep(&mut self, mark: usize, days: &[u32], last: u32)
        requires { length days.now ≤ STEPS }
        ensures { Keeps mark days.now last self.new }
    {
        self.mark = Some(mark);
        self.days[..days.len()].copy_from_slice(days);
        self.last = last;
    }
}

// The row that keeps the days of mark k, if one does.
fn row_of(k: usize, kept: &[Row]) -> Option<&Row>
    ensures { MatchOption result (Named k kept.now → ⊥) (λ row. Named k kept.now × (row.now ≡ row_of k kept.now)) }
{
    kept.get(k % ROWS).filter(|row| row.mark == Some(k))
}

// Sets n marks. The days of those that have a row are kept there.
pub fn push(counts: Counts, days: &[u32], kept: &mut [Row], n: usize) -> Counts
    requires steps_bound { counts.steps ≤ STEPS }
    requires in_bounds { STEPS ≤ length days.now }
    requires n_bound { counts.marks + n ≤ MARKS }
    ensures value { result ≡ more_marks n counts }
    ensures keeps_days { KeepsDays counts days.now kept.old result kept.new }
{
    let first = counts.marks as usize;
    let plan = &days[..counts.steps as usize];
    for k in first..first + n {
        if k % ROWS < kept.len() {
            kept[k % ROWS].keep(k, plan, counts.last);
        }
    }
    meaning::marks_now(counts, (first + n) as u32)
}

// Drops the newest n marks and every rule added while one of them was open. Rules that are known to be in order are taken off from the newest on; whether they are is
// yes or no, with no value beside it.
pub fn pop(
    counts: Counts,
    xs: &[u16],
    ys: &[u16],
    cs: &[i32],
    days: &mut [u32],
    levels: &mut [u8],
    heads: &mut [u16],
    nexts: &mut [u16],
    kept: &[Row],
    n: usize,
    in_order: bool,
) -> Counts
    requires border { Border (unwatched counts xs.now ys.now cs.now days.old levels.old) }
    requires n_le_marks { n ≤ counts.marks }
    requires lent_chains { LentChains counts.steps (held_by levels.old) xs.now heads.old nexts.old }
    requires kept_days { KeptDays (rule_at (columns xs.now ys.now cs.now)) counts.steps counts.marks levels.old kept.now }
    requires in_order { in_order ≡ true → InOrder counts.rules levels.old }
    ensures popped { Popped n (unwatched counts xs.now ys.now cs.now days.old levels.old)
        (unwatched result xs.now ys.now cs.now days.new levels.new) }
    ensures lent_chains_2 { LentChains result.steps (held_by levels.new) xs.now heads.new nexts.new }
{
    if n == 0 {
        return counts;
    }
    let k = counts.marks as usize - n;
    let steps = counts.steps as usize;
    let rules = counts.rules as usize;
    let left = free(steps, k, rules, xs, levels, heads, nexts, in_order);
    let last = days_at(
        steps,
        left < rules,
        xs,
        ys,
        cs,
        days,
        heads,
        nexts,
        kept,
        k,
        counts.last,
    );
    meaning::last_now(
        meaning::marks_now(meaning::rules_now(counts, left as u32), k as u32),
        last,
    )
}

// Frees every place of a level above k, of m rules held over n steps, and leaves the chains of the rules that stay. Gives back how many these are.
fn free(
    n: usize,
    k: usize,
    m: usize,
    xs: &[u16],
    levels: &mut [u8],
    heads: &mut [u16],
    nexts: &mut [u16],
    in_order: bool,
) -> usize
    requires freeable { Freeable n k m xs.now levels.old }
    requires lent_chains { LentChains n (held_by levels.old) xs.now heads.old nexts.old }
    requires in_order { in_order ≡ true → InOrder m levels.old }
    ensures levels_after { levels.new ≡ freed_above RULES k levels.old }
    ensures value { result ≡ taken RULES levels.new }
    ensures lent_chains_2 { LentChains n (held_by levels.new) xs.now heads.new nexts.new }
{
    if in_order {
        let left = inner_back::cut(k, m, levels);
        inner_back::drop_newest(left, m, n, xs, levels, heads, nexts);
        return left;
    }
    inner_back::free_above(n, k, m, xs, levels, heads, nexts)
}

// Brings the days of n steps, which keep every rule on the chains, those added before mark k was set, and have that last day, to the earliest plan of these rules. Gives
// back the last day then. Where the days of the mark are kept, they are copied; else, where nothing is loose, the days are that plan as they are.
fn days_at<'a>(
    n: usize,
    loose: bool,
    xs: &'a [u16],
    ys: &'a [u16],
    cs: &'a [i32],
    days: &mut [u32],
    heads: &[u16],
    nexts: &[u16],
    kept: &[Row],
    k: usize,
    last: u32,
) -> u32
    requires plannable { Plannable n (linked nexts.now) xs.now ys.now cs.now days.old }
    requires earliest { loose ≡ false → Earliest n (rules xs.now ys.now cs.now) (linked nexts.now) (at days.old) }
    requires lent_chains { LentChains n (linked nexts.now) xs.now heads.now nexts.now }
    requires last_value { last ≡ largest n (at days.old) }
    requires k_bound { k < MARKS }
    requires kept_for { KeptFor (rules xs.now ys.now cs.now) n (linked nexts.now) k kept.now }
    ensures planned { Planned n (rules xs.now ys.now cs.now) (linked nexts.now) days.old days.new }
    ensures value { result ≡ largest n (at days.new) }
{
    if let Some(row) = row_of(k, kept) {
        days[..n].copy_from_slice(&row.days[..n]);
        return row.last;
    }
    inner_back::replan(n, loose, Rules { xs, ys, cs }, days, heads, nexts, last)
}
