// Adding the rules of an asserted term, from left to right, up to the first conflict.
#![tactic(auto)]

ghost use Rattle.std.specs.Prelude.{◌≡◌, true, ℕ, ◌+◌, ◌≤◌, ◌<◌, length};
ghost use Rattle.std.specs.Option.{unwrap_or};
ghost use Rattle.meaning.specs.Bounds.{RULES};
ghost use Rattle.meaning.specs.Rules.{InBounds, rule};
ghost use Rattle.meaning.specs.Tables.{taken, lowest_free};
ghost use Rattle.lent.specs.Lent.{columns, held_by, AllHeld};
ghost use Rattle.lent.specs.Idle.{unwatched};
ghost use Rattle.lent.specs.Promises.{Border};
ghost use Rattle.chains.specs.Chains.{LentChains};
ghost use Rattle.script_meaning.specs.Effect.{AddsAll};
ghost use Rattle.asserts.specs.Rows.{rows_from, RowsFine};
ghost use Rattle.asserts.specs.Within.{Within};
ghost use Rattle.asserts.specs.One.{AddsOne};

use meaning::Counts;

// What adding rules came to: the counts after it, and whether one of the rules did not fit. Both are told of every outcome, since the rules before a clash stay held; a Result would have the counts on both sides.
#[derive(Drop)]
pub struct Added {
    pub counts: Counts,
    pub clash: bool,
}

// The lowest free place, where so many are held; where these are known to be the first, it is the one behind them.
fn place_for(levels: &[u8], rules: usize, packed: bool) -> usize
    requires in_bounds { RULES ≤ length levels.now }
    requires rules_bound { rules ≤ RULES }
    requires rules_value { rules ≡ taken RULES levels.now }
    requires all_held { packed ≡ true → AllHeld rules levels.now }
    ensures { result ≡ lowest_free RULES levels.now }
{
    if packed {
        return rules;
    }
    lent::next_free(levels, rules)
}

// Adds one rule, puts it on its chain and gives the counts with it; where it does not fit it gives none, and nothing changes. It and the rules held speak of steps below e alone, so no other step is looked at.
fn add_one(
    counts: Counts,
    xs: &mut [u16],
    ys: &mut [u16],
    cs: &mut [i32],
    days: &mut [u32],
    levels: &mut [u8],
    heads: &mut [u16],
    nexts: &mut [u16],
    x: u16,
    y: u16,
    c: i32,
    e: u32,
    packed: bool,
) -> Option<Counts>
    requires border { Border (unwatched counts xs.old ys.old cs.old days.old levels.old) }
    requires lent_chains { LentChains counts.steps (held_by levels.old) xs.old heads.old nexts.old }
    requires in_bounds { InBounds e (rule x y c) }
    requires rules_bound { counts.rules < RULES }
    requires within { Within e counts levels.old (columns xs.old ys.old cs.old) }
    requires all_held { packed ≡ true → AllHeld counts.rules levels.old }
    ensures adds_one { AddsOne (rule x y c) (unwatched counts xs.old ys.old cs.old days.old levels.old)
        result (λ now. unwatched now xs.new ys.new cs.new days.new levels.new) }
    ensures lent_chains_2 { LentChains (unwrap_or result counts).steps (held_by levels.new) xs.new heads.new nexts.new }
    ensures all_held_2 { packed ≡ true → AllHeld (unwrap_or result counts).rules levels.new }
{
    let n = e as usize;
    let m = place_for(levels, counts.rules as usize, packed);
    let risen = inner_add::fit(n, m, xs, ys, cs, days, heads, nexts, x, y, c, counts.last)?;
    levels[m] = (counts.marks + 1) as u8;
    chains::insert(counts.steps as usize, xs, heads, nexts, m);
    Some(inner_add::one_more(counts, risen.last))
}

// Adds the rules of the first k rows, up to the first that does not fit. These and the rules held speak of steps below e alone.
pub fn add_rules(
    k: usize,
    row_xs: &[u16],
    row_ys: &[u16],
    row_cs: &[i32],
    counts: Counts,
    xs: &mut [u16],
    ys: &mut [u16],
    cs: &mut [i32],
    days: &mut [u32],
    levels: &mut [u8],
    heads: &mut [u16],
    nexts: &mut [u16],
    e: u32,
    packed: bool,
) -> Added
    requires k_in_bounds { k ≤ length row_xs.now }
    requires k_in_bounds_2 { k ≤ length row_ys.now }
    requires k_in_bounds_3 { k ≤ length row_cs.now }
    requires rows_fine { RowsFine e (columns row_xs.now row_ys.now row_cs.now) k }
    requires k_bound { counts.rules + k ≤ RULES }
    requires border { Border (unwatched counts xs.old ys.old cs.old days.old levels.old) }
    requires lent_chains { LentChains counts.steps (held_by levels.old) xs.old heads.old nexts.old }
    requires within { Within e counts levels.old (columns xs.old ys.old cs.old) }
    requires all_held { packed ≡ true → AllHeld counts.rules levels.old }
    ensures adds_all { AddsAll (rows_from (columns row_xs.now row_ys.now row_cs.now) 0 k)
        (unwatched counts xs.old ys.old cs.old days.old levels.old)
        result.clash (unwatched result.counts xs.new ys.new cs.new days.new levels.new) }
    ensures lent_chains_2 { LentChains result.counts.steps (held_by levels.new) xs.new heads.new nexts.new }
{
    let mut held = counts;
    // A row is one place of three columns; their zip, cut at k, would be longer.
    for i in 0..k {
        let added = add_one(
            held, xs, ys, cs, days, levels, heads, nexts, row_xs[i], row_ys[i], row_cs[i], e,
            packed,
        );
        match added {
            Some(now) => held = now,
            None => {
                return Added {
                    counts: held,
                    clash: true,
                };
            }
        }
    }
    Added {
        counts: held,
        clash: false,
    }
}
