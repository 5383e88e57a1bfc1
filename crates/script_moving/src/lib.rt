// What a command does to the tables: the rules of its rows are added, its marks set and those that it drops dropped. The parts are called in a row, each with
// nothing to do where it is not its turn: no row is added, 0 marks are set or dropped.
#![tactic(auto)]

ghost use Rattle.std.specs.Prelude.{◌≡◌};
ghost use Rattle.meaning.specs.Tables.{rule_at};
ghost use Rattle.lent.specs.Lent.{columns, held_by};
ghost use Rattle.lent.specs.Idle.{unwatched};
ghost use Rattle.lent.specs.Promises.{Border};
ghost use Rattle.chains.specs.Chains.{LentChains};
ghost use Rattle.levels.specs.Levels.{KeptDays};
ghost use Rattle.asserts.specs.Within.{Within};
ghost use Rattle.script_moving.specs.Moving.{adds, pushes, pops, Movable, Moves, OrderKept};

use meaning::Counts;
use reading::Kind;

// What a command asks of the tables: how many rows are added, and how many marks are set and dropped.
#[derive(Clone, Copy)]
struct Work {
    rows: usize,
    push: usize,
    pop: usize,
}

const NONE: Work = Work {
    rows: 0,
    push: 0,
    pop: 0,
};

// The work of a command of this kind.
fn work_of(c: Kind, broken: u32) -> Work
    ensures { (result.rows ≡ adds c broken) × ((result.push ≡ pushes c) × (result.pop ≡ pops c)) }
{
    match c {
        Kind::Assert(k) if broken == 0 => Work { rows: k, ..NONE },
        Kind::Push(n) => Work {
            push: n as usize,
            ..NONE
        },
        Kind::Pop(n) => Work {
            pop: n as usize,
            ..NONE
        },
        _ => NONE,
    }
}

// Adds the rules of the command's rows, sets its marks and drops those that it drops. The rows and the rules held speak of steps below e alone.
pub fn move_tables(
    c: Kind,
    broken: u32,
    row_xs: &[u16],
    row_ys: &[u16],
    row_cs: &[i32],
    counts: Counts,
    xs: &mut [u16],
    ys: &mut [u16],
    cs: &mut [i32],
    days: &mut [u32],
    levels: &mut [u8],
    heads: &mut [u16],
    nexts: &mut [u16],
    kept: &mut [levels::Row],
    e: u32,
) -> asserts::Added
    requires movable { Movable c broken e (columns row_xs.now row_ys.now row_cs.now) counts }
    requires border { Border (unwatched counts xs.old ys.old cs.old days.old levels.old) }
    requires lent_chains { LentChains counts.steps (held_by levels.old) xs.old heads.old nexts.old }
    requires kept_days { KeptDays (rule_at (columns xs.old ys.old cs.old)) counts.steps counts.marks levels.old kept.old }
    requires order_kept { OrderKept counts.rules levels.old kept.old }
    requires within { Within e counts levels.old (columns xs.old ys.old cs.old) }
    ensures moves { Moves c broken (columns row_xs.now row_ys.now row_cs.now)
        (unwatched counts xs.old ys.old cs.old days.old levels.old)
        result.clash
        (unwatched result.counts xs.new ys.new cs.new days.new levels.new) }
    ensures lent_chains_2 { LentChains result.counts.steps (held_by levels.new) xs.new heads.new nexts.new }
    ensures kept_days_2 { KeptDays (rule_at (columns xs.new ys.new cs.new)) result.counts.steps result.counts.marks levels.new kept.new }
{
    let work = work_of(c, broken);
    let in_order = 0 < kept.len();
    let added = asserts::add_rules(
        work.rows, row_xs, row_ys, row_cs, counts, xs, ys, cs, days, levels, heads, nexts, e,
        in_order,
    );
    let grown = added.counts;
    let pushed = levels::push(grown, days, kept, work.push);
    let popped = levels::pop(
        pushed, xs, ys, cs, days, levels, heads, nexts, kept, work.pop, in_order,
    );
    asserts::Added {
        counts: popped,
        clash: added.clash,
    }
}
