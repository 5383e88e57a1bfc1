// The gap table made afresh, brought up to date and tested.
#![tactic(auto)]

ghost use Rattle.std.specs.Prelude.{◌≡◌, ℕ, ◌+◌, ◌<◌, ◌≤◌, [], length, get_or, pos};
ghost use Rattle.meaning.specs.Bounds.{YARD_STEPS};
ghost use Rattle.meaning.specs.Rules.{InAmount, InSteps};
ghost use Rattle.meaning.specs.Tables.{rule_at, at};
ghost use Rattle.lent.specs.Lent.{columns_of, columns, held_by, Placed};
ghost use Rattle.lent.specs.Idle.{unwatched};
ghost use Rattle.lent.specs.Promises.{Border};
ghost use Rattle.lent.specs.Decides.{Decides};
ghost use Rattle.gaps.specs.Gaps.{cell, InYard, Right, Remade};
ghost use Rattle.gaps.specs.Slacks.{NONE as NONE_SPEC, Near, SmallerOf, Raised};
ghost use Rattle.yard.specs.Cells.{limit};
ghost use Rattle.yard.specs.Squares.{way, RowBounded, Bounded, RowStaged, Closed};
ghost use Rattle.yard.specs.Tables.{Made, TableMade, Blank, Leasable, Lowered, Least, Slackable, SlackOf, RowKept, RowSlack, Single};

use gaps::Gaps;
use lent::Rules;
use meaning::Counts;

// The slack of a pair of which nothing is known. With an Option a row would take 1.5 times the instructions and twice the room.
const NONE: u64 = 1125899906842624;

// So many places are read at a time; the number of all places is a multiple of it.
const GROUP: usize = 4;

// One row of slacks, and all of them.
type Row = [u64; meaning::YARD_STEPS];

type Square = [Row; meaning::YARD_STEPS];

// One row of the gap table. A cell without a limit has NO_LIMIT, and is no Option, since C lends the table (`gaps` in include/dates.h).
type Limits = [i64; meaning::YARD_STEPS];

// Puts the ways that begin with `base` and go on by the row `via` into the row. Every cell is looked at, so that many are at a time.
// This loop and the others over a row or a table are no function that takes a closure: it would have this head, and each call as many lines.
fn stage_row(base: u64, via: &Row, row: &mut Row)
    requires base_bound { base ≤ NONE_SPEC }
    requires row_bounded { RowBounded via.now }
    ensures { RowStaged base via.now row.old row.new }
{
    for (y, cell) in row.iter_mut().enumerate() {
        *cell = u64::min(*cell, base + via[y]);
    }
}

// Puts the ways over each of the first n steps into the square, one step after the other. A row whose slack to the step is NONE has no way over it.
fn close(n: usize, square: &mut Square)
    requires n_bound { n ≤ YARD_STEPS }
    requires bounded { Bounded square.old }
    ensures { Closed n square.old square.new }
{
    for k in 0..n {
        let via = square[k];
        for row in square[..n].iter_mut() {
            let base = row[k];
            if base < NONE {
                stage_row(base, &via, row);
            }
        }
    }
}

// The square where nothing is known but that each step is on its own day.
fn blank() -> Square
    ensures { Blank result }
{
    let mut square = [[NONE; meaning::YARD_STEPS]; meaning::YARD_STEPS];
    for (v, row) in square.iter_mut().enumerate() {
        row[v] = 0;
    }
    square
}

// Lowers the cell of the pair of the rule under k to its amount, counted from BIAS below 0, where that is less.
fn lower(k: usize, rules: Rules<'_>, square: &mut Square)
    requires placed { Placed rules.xs.now rules.ys.now rules.cs.now k }
    requires steps_in { InSteps YARD_STEPS (rule_at (columns_of rules) k) }
    ensures { Lowered (rule_at (columns_of rules.entry) k) square.old square.new }
{
    let cell = &mut square[lent::number_at(rules.xs, k)][lent::number_at(rules.ys, k)];
    *cell = u64::min(*cell, lent::amount_at(rules.cs, k));
}

// The square of the least amounts that single rules give, of m rules held, counted from BIAS below 0. Places are read, a group at a time, until all of the rules have been seen.
fn least(m: usize, rules: Rules<'_>, levels: &[u8]) -> Square
    requires { Leasable m rules.xs.now rules.ys.now rules.cs.now levels.now }
    ensures { Least (rule_at (columns_of rules.entry)) (held_by levels.now) (way result) }
{
    let mut square = blank();
    let mut seen = 0;
    let mut i = 0;
    // A `for` over the groups would ask at each whether it is the last, and as well whether all have been seen.
    while seen < m {
        let end = i + GROUP;
        for k in i..end {
            if levels[k] != 0 {
                lower(k, rules, &mut square);
                seen += 1;
            }
        }
        i = end;
    }
    square
}

// The slack of a pair whose least amount is w, counted from BIAS below 0, where its steps have the days dx, counted so too, and dy.
fn slack_of(w: u64, dx: u64, dy: u64) -> u64
    requires dy_bound { dy < 4294967296 }
    requires dx_bound { w < NONE_SPEC → dx ≤ dy + w }
    ensures { SlackOf w dx dy result }
{
    if NONE <= w {
        return NONE;
    }
    dy + w - dx
}

// Makes the row of slacks of step x, from its row of least amounts. A step has its own day, so that its own cell becomes 0.
fn slack_row(x: usize, days: &[u32], row: &mut Row)
    requires x_bound { x < YARD_STEPS }
    requires in_bounds { YARD_STEPS ≤ length days.now }
    requires row_kept { RowKept x days.now row.old }
    ensures { RowSlack x days.now row.old row.new }
{
    let dx = lent::day_at(days, x) + lent::BIAS;
    row[x] = lent::BIAS;
    for (y, cell) in row.iter_mut().enumerate() {
        *cell = slack_of(*cell, dx, lent::day_at(days, y));
    }
}

// Makes the square of slacks, from that of least amounts.
fn make_slacks(days: &[u32], square: &mut Square)
    requires in_bounds { YARD_STEPS ≤ length days.now }
    requires by_index { (x : ℕ) → x < YARD_STEPS → RowKept x days.now (get_or square.old x []) }
    ensures { (x : ℕ) → x < YARD_STEPS → RowSlack x days.now (get_or square.old x []) (get_or square.new x []) }
{
    for (x, row) in square.iter_mut().enumerate() {
        slack_row(x, days, row);
    }
}

// The square of the slacks that single rules give, of m rules held. All rules of a pair have the days of its steps in common, so the least slack is that of the least amount.
fn slacks(m: usize, rules: Rules<'_>, days: &[u32], levels: &[u8]) -> Square
    requires { Slackable m rules.xs.now rules.ys.now rules.cs.now days.now levels.now }
    ensures { Single (rule_at (columns_of rules.entry)) (held_by levels.now) (at days.now) result }
{
    let mut square = least(m, rules, levels);
    make_slacks(days, &mut square);
    square
}

// The cell of a pair whose slack is w, where its steps have the days dx and dy.
fn limit_of(w: u64, dx: u64, dy: u64) -> i64
    requires dx_bound { dx < 4294967296 }
    requires dy_bound { dy < 4294967296 }
    ensures { result ≡ limit w dx dy }
{
    if NONE <= w {
        return meaning::NO_LIMIT;
    }
    (w + dx) as i64 - dy as i64
}

// Writes the first n cells of a row of the gap table, of a step with the day dx, from its row of slacks.
fn write_row(n: usize, dx: u64, days: &[u32], row: &Row, cells: &mut Limits)
    requires n_bound { n ≤ YARD_STEPS }
    requires n_in_bounds { n ≤ length days.now }
    requires dx_bound { dx < 4294967296 }
    ensures { Made (pos 0) (λ y z. z ≡ limit (at row.now y) dx (at days.now y)) n cells.old cells.new }
{
    for (y, cell) in cells[..n].iter_mut().enumerate() {
        *cell = limit_of(row[y], dx, lent::day_at(days, y));
    }
}

// Writes the cells of n steps into the gap table, from their slacks.
fn write(n: usize, days: &[u32], square: &Square, gaps: &mut Gaps)
    requires n_bound { n ≤ YARD_STEPS }
    requires n_in_bounds { n ≤ length days.now }
    ensures { TableMade (λ x y z. z ≡ limit (way square.now x y) (at days.now x) (at days.now y)) n gaps.old gaps.new }
{
    for (x, cells) in gaps[..n].iter_mut().enumerate() {
        write_row(n, lent::day_at(days, x), days, &square[x], cells);
    }
}

// Makes the gap table afresh, beside tables that are known to be sound. Where there are more steps than one yard has, nothing is written.
pub fn remake(counts: Counts, rules: Rules<'_>, days: &[u32], levels: &[u8], gaps: &mut Gaps)
    requires { Border (unwatched counts rules.xs.now rules.ys.now rules.cs.now days.now levels.now) }
    ensures { Remade (unwatched counts rules.entry.xs.now rules.entry.ys.now rules.entry.cs.now days.now levels.now) gaps.old gaps.new }
{
    let n = counts.steps as usize;
    if n <= meaning::YARD_STEPS {
        let mut square = slacks(counts.rules as usize, rules, days, levels);
        close(n, &mut square);
        write(n, days, &square, gaps);
    }
}

// Whether the gap table is right, beside tables that are known to be sound: one that is made afresh has the same cells. Where there are more steps than one yard has, any is, and no cell is read.
pub fn is_right(counts: Counts, rules: Rules<'_>, days: &[u32], levels: &[u8], gaps: &Gaps) -> bool
    requires { Border (unwatched counts rules.xs.now rules.ys.now rules.cs.now days.now levels.now) }
    ensures { Decides result (Right (unwatched counts rules.entry.xs.now rules.entry.ys.now rules.entry.cs.now days.now levels.now) gaps.now) }
{
    if meaning::YARD_STEPS < counts.steps as usize {
        return true;
    }
    let mut made = *gaps;
    remake(counts, rules, days, levels, &mut made);
    made == *gaps
}

// The smaller of the cell a and the way p + c + q, which is none where p or q has no limit.
fn smaller(a: i64, p: i64, c: i64, q: i64) -> i64
    requires near { Near p }
    requires in_amount { InAmount c }
    requires near_2 { Near q }
    ensures { SmallerOf a p c q result }
{
    if p == meaning::NO_LIMIT || q == meaning::NO_LIMIT {
        return a;
    }
    i64::min(a, p + c + q)
}

// Puts the ways that begin with p, go over a rule of the amount c and on by the row `via` into the first n cells of a row.
fn raise_row(n: usize, p: i64, c: i64, via: &Limits, row: &mut Limits)
    requires n_bound { n ≤ YARD_STEPS }
    requires near { Near p }
    requires in_amount { InAmount c }
    requires by_index { (j : ℕ) → j < n → Near (get_or via.now j (pos 0)) }
    ensures { Made (pos 0) (λ j z. SmallerOf (get_or row.old j (pos 0)) p c (get_or via.now j (pos 0)) z) n row.old row.new }
{
    for (j, cell) in row[..n].iter_mut().enumerate() {
        *cell = smaller(*cell, p, c, via[j]);
    }
}

// Brings the gap table of n steps up to date for the rule x, y, c that was added. Where there are more steps than one yard has, nothing is written.
pub fn raise(n: usize, x: usize, y: usize, c: i32, gaps: &mut Gaps)
    requires x_lt_n { x < n }
    requires y_lt_n { y < n }
    requires in_amount { InAmount c }
    requires by_index { (i j : ℕ) → InYard n i j → Near (cell gaps.old i j) }
    ensures { Raised n x y c gaps.old gaps.new }
{
    if meaning::YARD_STEPS < n {
        return;
    }
    let via = gaps[y];
    for row in gaps[..n].iter_mut() {
        raise_row(n, row[x], i64::from(c), &via, row);
    }
}

// The cell of the pair x, y.
pub fn cell_at(gaps: &Gaps, x: usize, y: usize) -> i64
    requires x_bound { x < YARD_STEPS }
    requires y_bound { y < YARD_STEPS }
    ensures { result ≡ cell gaps.now x y }
{
    gaps[x][y]
}
