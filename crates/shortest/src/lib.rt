// The shortest reason of a refused rule x, y, c: of the negative rings that it closes with held rules one with the fewest rules, and of these the one whose
// list of numbers is smallest at the first difference.
// Held rules that lead from y to x close a negative ring exactly when what they have to spare adds up below t, which is what the days lack for the rule. Layer h
// has for each step the least sum over h rules from it to x, and t where none is below t. The first layer with y below t says how many rules there are. From y
// each rule is then the lowest whose sum with the layer before stays below what is left of t. So layers are read from the last to the first; and since they are
// made from the first to the last, a layer on the way is kept, the rules above it are found, then, from the same start, those below it.
// A step that lies deep below y is of no use to a way of g rules where too few of them are left: so the steps have depths, and a layer is made only as far down as it counts.
#![tactic(auto)]

ghost use Rattle.std.specs.Prelude.{◌≡◌, ℕ, ◌+◌, ◌*◌, ◌<◌, ◌≤◌, IsTrue, MatchOption, length};
ghost use Rattle.meaning.specs.Bounds.{STEPS, RULES};
ghost use Rattle.meaning.specs.Tables.{at};
ghost use Rattle.lent.specs.Decides.{Decides};
ghost use Rattle.chains.specs.Chains.{ChainsOf, number, linked};
ghost use Rattle.shortest.specs.Clauses.{FAR as FAR_SPEC, GROUP as GROUP_SPEC, on, Leading, Chained, Ends, Fails, PassesFirst, UpperPart, Share, Entered, Spread, Widened, Levelled, Settled, Deepened, Refuted, ReasonIn};

use chains::Held;
use lent::Rules;

// So many layers are kept at once: the one that is worked in, and as many more as `CAP` is a power of `SHARE`, and one.
const LAYERS: usize = 5;

// The upper part of a span has no more rules than the cap, and within it the cap is this share of it: so much less as a layer is kept for it.
const SHARE: usize = 6;

const CAP: usize = SHARE * SHARE * SHARE;

// So many cells are looked at together.
const GROUP: usize = 16;

// The depth of a step that no rule has led to yet.
const FAR: u16 = 65535;

// The cells of all layers, in an array of the call's own: the library takes no memory.
const CELLS: usize = LAYERS * meaning::STEPS;

// Whether the test fails at every cell of the group. Every cell is looked at, so that many are at a time.
fn fails_at_all<T: Copy, F: Fn(T) -> bool>(group: &[T], test: &F) -> bool
    requires { F.IsAlwaysCallable test.now }
    ensures { IsTrue result → Fails (λ c passes. F.post test.now c passes) group.now 0 (length group.now) }
{
    let mut found = false;
    for cell in group {
        if test(*cell) {
            found = true;
        }
    }
    !found
}

// The first place from i on whose cell passes the test; groups at whose cells it fails are passed as a whole.
fn first_from<T: Copy, F: Fn(T) -> bool>(list: &[T], i: usize, test: F) -> Option<usize>
    requires callable { F.IsAlwaysCallable test }
    requires i_le_length { i ≤ length list.now }
    ensures { MatchOption result (Fails (λ c passes. F.post test c passes) list.now i (length list.now))
        (λ r. PassesFirst (λ c passes. F.post test c passes) list.now i r) }
{
    let places = list.len();
    // A loop and no `position`, which looks at one cell at a time.
    let mut k = i;
    while GROUP <= places - k && fails_at_all(&list[k..k + GROUP], &test) {
        k += GROUP;
    }
    for place in k..places {
        if test(list[place]) {
            return Some(place);
        }
    }
    None
}

// How many rules the upper part of a span has: half of them, rounded up, where the cap is no less, and else as many as the cap.
fn upper_part(span: usize, cap: usize) -> usize
    requires span_nonzero { 0 < span }
    requires cap_nonzero { 0 < cap }
    ensures { UpperPart span cap result }
{
    let half = (span - 1) / 2 + 1;
    half.min(cap)
}

// The cap within an upper part: the share of it, rounded down.
fn share(cap: usize) -> usize
    ensures { Share cap result }
{
    cap / SHARE
}

// Where a way goes on: at which step, and what is left of the bound.
#[derive(Clone, Copy)]
struct Stand {
    step: usize,
    bound: u32,
}

// What a search for the shortest reason goes by: so many steps, the rules that lead to each step, how deep each step lies, what the days lack for the refused rule,
// and where a way starts and where it leads.
#[derive(Clone, Copy)]
struct Search<'a, 'd> {
    steps: usize,
    held: Held<'a>,
    depths: &'d [u16],
    lack: u32,
    start: usize,
    goal: usize,
    ghost chained: { Chained steps held depths.now lack },
    ghost ends: { Ends steps depths.now start goal },
}

impl Search<'_, '_> {
    ghost use Rattle.shortest.specs.Searching.{IsLayer, LoweredBy, Passed, FollowedBy, Fits, Pickable, Picked, Descendable, Descended, Written, Way, Shortest, NoneWithin, FewestWithin};

    // Makes the list layer 0: 0 for the goal, the lack for every other step.
    fn begin(self, g: usize, layer: &mut [u32])
        requires { length layer.old ≡ self.steps }
        ensures { IsLayer self.entry g 0 layer.new }
    {
        layer.fill(self.lack);
        layer[self.goal] = 0;
    }

    // Lowers the cell of the first step of rule i, where it is higher, to what the rule has to spare and the rest; but not where that step lies deeper than the limit.
    fn lower(self, limit: usize, i: usize, rest: u32, layer: &mut [u32])
        requires held { on self.held i }
        requires room { self.steps ≤ length layer.old }
        ensures { LoweredBy self.entry limit i rest layer.old layer.new }
    {
        let first = lent::number_at(self.held.rules.xs, i);
        if limit < lent::number_at(self.depths, first) {
            return;
        }
        let sum = self
            .held
            .rules
            .slack(self.held.days, i)
            .saturating_add(rest as u64);
        if sum < layer[first] as u64 {
            layer[first] = sum as u32;
        }
    }

    // Lowers the layer by the rules that lead to step u, as far as their first steps lie no deeper than the limit, by what the one before has for u.
    fn pass(self, limit: usize, u: usize, before: &[u32], layer: &mut [u32])
        requires u_lt_steps { u < self.steps }
        requires before_room { self.steps ≤ length before.now }
        requires room { self.steps ≤ length layer.old }
        ensures { Passed self.entry limit u before.now layer.old layer.new }
    {
        let rest = before[u];
        // A chain is walked by its links: it lies in lent lists, since the library takes no memory.
        let mut link = lent::number_at(self.held.heads, u);
        while 0 < link {
            let i = link - 1;
            self.lower(limit, i, rest, layer);
            link = lent::number_at(self.held.nexts, i);
        }
    }

    // Makes the layer that follows the one before, for steps that lie no deeper than the limit.
    fn next(self, limit: usize, before: &[u32], layer: &mut [u32])
        requires before_long { length before.now ≡ self.steps }
        requires room { self.steps ≤ length layer.old }
        ensures { FollowedBy self.entry limit before.now layer.new }
    {
        let lack = self.lack;
        layer.fill(lack);
        let mut from = 0;
        while let Some(u) = first_from(before, from, |rest| rest < lack) {
            self.pass(limit, u, before, layer);
            from = u + 1;
        }
    }

    // Makes layer hi of layer lo, in its place, for ways of g rules, with as many cells to work in.
    fn raise(self, g: usize, lo: usize, hi: usize, layer: &mut [u32], room: &mut [u32])
        requires lo_le_hi { lo ≤ hi }
        requires hi_le_g { hi ≤ g }
        requires from_layer { IsLayer self g lo layer.old }
        requires room { length room.old ≡ self.steps }
        ensures { IsLayer self.entry g hi layer.new }
    {
        for h in lo..hi {
            self.next(g - (h + 1), layer, room);
            layer.copy_from_slice(room);
        }
    }

    // Whether rule i, which leads from step v, stays, with what the layer has for its second step, below the bound.
    fn fits(self, v: usize, bound: u32, layer: &[u32], i: usize) -> bool
        requires number_in { i < RULES }
        requires own { at self.held.rules.xs.now i ≡ v }
        requires room { self.steps ≤ length layer.now }
        ensures { Decides result (Fits self.entry v bound layer.now i) }
    {
        if chains::OFF <= self.held.nexts[i] {
            return false;
        }
        let spare = self.held.rules.slack(self.held.days, i);
        let rest = lent::day_at(layer, lent::number_at(self.held.rules.ys, i));
        spare.saturating_add(rest) < bound as u64
    }

    // The lowest rule on a chain that leads from step v and stays, with what the layer has for its second step, below the bound. There is one.
    fn pick(self, v: usize, bound: u32, layer: &[u32]) -> usize
        requires { Pickable self v bound layer.now }
        ensures { Picked self.entry v bound layer.now result }
    {
        let firsts = &self.held.rules.xs[..meaning::RULES];
        let step = v as u16;
        let mut from = 0;
        loop {
            let i = first_from(firsts, from, |first| first == step).unwrap();
            if self.fits(v, bound, layer, i) {
                return i;
            }
            from = i + 1;
        }
    }

    // Writes the numbers of the rules hi to lo of the least way on from the stand, where the list is layer lo, and says where the way goes on. While more than one rule
    // is left, those of an upper part, no more than the cap, are found by a layer that is kept for them; the last one by layer lo.
    fn descend(
        self,
        g: usize,
        lo: usize,
        hi: usize,
        from: Stand,
        cap: usize,
        layer: &[u32],
        room: &mut [u32],
        list: &mut [u32],
    ) -> Stand
        requires { Descendable self g lo hi from.step from.bound cap layer.now room.old list.old }
        ensures { Descended self.entry g lo hi from.step from.bound list.old list.new result.step result.bound }
    {
        let part = share(cap);
        // Each part ends where the next begins, so a loop keeps both: a chain of iterators would carry the same pair.
        let mut top = hi;
        let mut stand = from;
        while 1 < top - lo {
            let mid = top - upper_part(top - lo, cap);
            let (upper, rest) = room.split_at_mut(self.steps);
            upper.copy_from_slice(layer);
            self.raise(g, lo, mid, upper, &mut rest[..self.steps]);
            stand = self.descend(g, mid, top, stand, part, upper, rest, list);
            top = mid;
        }
        let i = self.pick(stand.step, stand.bound, layer);
        list[g - lo] = i as u32;
        Stand {
            step: lent::number_at(self.held.rules.ys, i),
            bound: stand.bound - self.held.rules.slack(self.held.days, i) as u32,
        }
    }

    // Writes the numbers of the h rules of the least way from place 1 on. While rules are left, those of an upper part, no more than `CAP`, are found by a layer that is made
    // for them of layer 0.
    fn trace(self, h: usize, layer: &mut [u32], room: &mut [u32], list: &mut [u32])
        requires way { Way self self.start h self.lack }
        requires layer_long { length layer.old ≡ self.steps }
        requires layers_room { 4 * self.steps ≤ length room.old }
        requires list_room { h + 1 ≤ length list.old }
        ensures { Written self.entry h list.old list.new }
    {
        let part = share(CAP);
        let mut top = h;
        let mut stand = Stand {
            step: self.start,
            bound: self.lack,
        };
        while 0 < top {
            let mid = top - upper_part(top, CAP);
            self.begin(h, layer);
            self.raise(h, 0, mid, layer, &mut room[..self.steps]);
            stand = self.descend(h, mid, top, stand, part, layer, room, list);
            top = mid;
        }
    }

    // How many rules the shortest way has, where that is no more than g.
    fn within(self, g: usize, layer: &mut [u32], room: &mut [u32]) -> Option<usize>
        requires layer_long { length layer.old ≡ self.steps }
        requires room_long { length room.old ≡ self.steps }
        ensures { MatchOption result (NoneWithin self.entry g) (λ h. FewestWithin self.entry g h) }
    {
        self.begin(g, layer);
        for h in 0..g {
            if layer[self.start] < self.lack {
                return Some(h);
            }
            self.raise(g, h, h + 1, layer, room);
        }
        if layer[self.start] < self.lack {
            Some(g)
        } else {
            None
        }
    }

    // How many rules the shortest way has. It is looked for among ways of as many rules as the goal lies deep, then of 1, 2, 4 .. more.
    fn fewest(self, layer: &mut [u32], room: &mut [u32]) -> usize
        requires some { (h : ℕ) × (h < self.steps) × Way self self.start h self.lack }
        requires layer_long { length layer.old ≡ self.steps }
        requires room_long { length room.old ≡ self.steps }
        ensures { Shortest self.entry result }
    {
        let mut g = self.depths[self.goal] as usize;
        let mut more = 1;
        loop {
            if let Some(h) = self.within(g, layer, room) {
                return h;
            }
            g += more;
            more += more;
        }
    }
}

// What depths are found by: so many steps, the rules that lead from each step, and what the days lack for the refused rule.
#[derive(Clone, Copy)]
struct Outward<'a> {
    steps: usize,
    held: Held<'a>,
    lack: u32,
    ghost leading: { Leading steps held },
}

impl Outward<'_> {
    // Gives the second step of rule i the depth after the level, where it has none yet and the rule has less to spare than the days lack.
    fn enter(self, level: usize, i: usize, depths: &mut [u16])
        requires held { on self.held i }
        requires level_bound { level + 1 < FAR_SPEC }
        requires room { self.steps ≤ length depths.old }
        ensures { Entered self.entry.held self.entry.lack level i depths.old depths.new }
    {
        let u = lent::number_at(self.held.rules.ys, i);
        if depths[u] < FAR {
            return;
        }
        if self.lack as u64 <= self.held.rules.slack(self.held.days, i) {
            return;
        }
        depths[u] = (level + 1) as u16;
    }

    // The same by all rules of step v.
    fn spread(self, level: usize, v: usize, depths: &mut [u16])
        requires level_bound { level + 1 < FAR_SPEC }
        requires v_lt_steps { v < self.steps }
        requires room { self.steps ≤ length depths.old }
        ensures { Spread self.entry.held self.entry.lack level v depths.old depths.new }
    {
        // A chain is walked by its links: it lies in lent lists, since the library takes no memory.
        let mut link = lent::number_at(self.held.heads, v);
        while 0 < link {
            let i = link - 1;
            self.enter(level, i, depths);
            link = lent::number_at(self.held.nexts, i);
        }
    }

    // The same by all steps that have the level for their depth.
    fn widen(self, level: usize, depths: &mut [u16])
        requires level_bound { level + 1 < FAR_SPEC }
        requires long { length depths.old ≡ self.steps }
        ensures { Widened self.entry.held self.entry.lack level depths.old depths.new }
    {
        let last = level as u16;
        let mut from = 0;
        while let Some(v) = first_from(depths, from, |depth| depth == last) {
            self.spread(level, v, depths);
            from = v + 1;
        }
    }

    // Gives depths level by level, 0 to y, until x has one or there are as many levels as steps. Says how far they go.
    fn levels(self, x: usize, y: usize, depths: &mut [u16]) -> usize
        requires x_lt_steps { x < self.steps }
        requires y_lt_steps { y < self.steps }
        requires long { length depths.old ≡ self.steps }
        requires far { (v : ℕ) → v < self.steps → at depths.old v ≡ FAR_SPEC }
        ensures upper_bound { result ≤ self.entry.steps }
        ensures levelled { Levelled self.entry.steps self.entry.held self.entry.lack y result depths.new }
    {
        depths[y] = 0;
        for level in 0..self.steps {
            if depths[x] < FAR {
                return level;
            }
            self.widen(level, depths);
        }
        self.steps
    }

    // Gives depths from y on, as far as to x; all other steps lie one deeper.
    fn deepen(self, x: usize, y: usize, depths: &mut [u16])
        requires x_lt_steps { x < self.steps }
        requires y_lt_steps { y < self.steps }
        requires long { length depths.old ≡ self.steps }
        requires far { (v : ℕ) → v < self.steps → at depths.old v ≡ FAR_SPEC }
        ensures { Deepened self.entry.held self.entry.lack y depths.new }
    {
        let level = self.levels(x, y, depths);
        settle(level, depths);
    }
}

// Gives all steps that lie deeper than the level the depth after it.
fn settle(level: usize, depths: &mut [u16])
    requires { level + 1 < FAR_SPEC }
    ensures { Settled (length depths.old) level depths.old depths.new }
{
    let below = (level + 1) as u16;
    for depth in depths.iter_mut() {
        *depth = (*depth).min(below);
    }
}

// Writes the reason why the rule x, y, c, which some list refutes, is refused into the list, and gives back its length: first the rule's would-be number m, then
// the rules on the chains that lead from y to x. The chains, by first steps, are used up.
pub fn reason<'a>(
    n: usize,
    m: usize,
    rules: Rules<'a>,
    days: &'a [u32],
    heads: &'a mut [u16],
    nexts: &'a mut [u16],
    x: usize,
    y: usize,
    c: i32,
    list: &mut [u32],
) -> usize
    requires refuted { Refuted n (linked nexts.old) m rules.xs.now rules.ys.now rules.cs.now days.now heads.old nexts.old x y c list.old }
    requires chains_of { ChainsOf n (linked nexts.old) number rules.xs.now heads.old nexts.old }
    ensures { ReasonIn (linked nexts.old) m rules.entry.xs.now rules.entry.ys.now rules.entry.cs.now x y c result list.old list.new }
{
    let t = lent::day_at(days, x) + lent::BIAS - (lent::day_at(days, y) + lent::biased(c));
    let lack = t as u32;
    let mut all_depths = [FAR; meaning::STEPS];
    let depths = &mut all_depths[..n];
    let by_firsts = Held {
        rules,
        days,
        heads,
        nexts,
    };
    let outward = Outward {
        steps: n,
        held: by_firsts,
        lack,
    };
    outward.deepen(x, y, depths);
    chains::turn(n, rules.ys, heads, nexts);
    let by_seconds = Held {
        rules,
        days,
        heads,
        nexts,
    };
    let search = Search {
        steps: n,
        held: by_seconds,
        depths,
        lack,
        start: y,
        goal: x,
    };
    let mut cells = [0u32; CELLS];
    let (layer, room) = cells.split_at_mut(n);
    let h = search.fewest(layer, &mut room[..n]);
    list[0] = m as u32;
    search.trace(h, layer, room, list);
    h + 1
}
