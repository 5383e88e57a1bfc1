// Steps that wait with their gains, and which of them has the largest. They stand in the first places of a list, in groups of GROUP places. Each group has a
// leader, which is one of its steps with the largest gain; and the place of each step is known. So a step enters or rises by one comparison, and a step
// of largest gain is found among the leaders; when it leaves, its group is looked through for a new one.
#![tactic(auto)]

ghost use Rattle.std.specs.Prelude.{◌≡◌, ◌*◌, ◌<◌, ◌≤◌, length};
ghost use Rattle.meaning.specs.Tables.{at};
ghost use Rattle.waiting.specs.Places.{GROUP, Below, Placed, HasLeaders, LargestOf, Leadable, Promoted, Regroupable, Regrouped};

// A group has so many places.
pub const GROUP: usize = 16;

// How many leaders there are for STEPS steps: one for each group of their places.
pub const GROUPS: usize = (meaning::STEPS + GROUP - 1) / GROUP;

// Of these steps, which are some, one that has the largest gain.
fn largest(steps: &[u16], gains: &[u64]) -> u16
    requires some { 0 < length steps.now }
    requires gains_room { Below (length gains.now) steps.now (length steps.now) }
    ensures { LargestOf (at gains.now) (at steps.now) (length steps.now) result }
{
    let mut best = steps[0];
    let mut top = gains[best as usize];
    for &step in &steps[1..] {
        let gain = gains[step as usize];
        if top < gain {
            top = gain;
            best = step;
        }
    }
    best
}

// Makes step y the leader of group b where its gain is larger than the leader's.
fn lead(y: usize, b: usize, gains: &[u64], leaders: &mut [u16])
    requires { Leadable gains.now leaders.old y b }
    ensures { Promoted (at gains.now) y b leaders.old leaders.new }
{
    if gains[leaders[b] as usize] < gains[y] {
        leaders[b] = y as u16;
    }
}

// Finds the leader of group b among the steps, where the group has some of them.
fn regroup(b: usize, gains: &[u64], steps: &[u16], leaders: &mut [u16])
    requires { Regroupable gains.now steps.now leaders.old b }
    ensures { Regrouped (at gains.now) (at steps.now) (length steps.now) b (at leaders.old) (at leaders.new) }
{
    let from = GROUP * b;
    if steps.len() <= from {
        return;
    }
    let to = usize::min(steps.len(), from + GROUP);
    leaders[b] = largest(&steps[from..to], gains);
}

// The steps that wait, of the steps below N, with leaders for G groups: `count` of them, in the first places of the list.
#[derive(Drop)]
pub struct Waiting<const N: usize, const G: usize> {
    pub list: [u16; N],
    places: [u16; N],
    leaders: [u16; G],
    pub count: usize,
    ghost within: { count ≤ N },
    ghost groups: { count ≤ GROUP * G },
    ghost places_fit: { count ≤ 65536 },
    ghost below: { Below N list count },
    ghost placed: { Placed list places count },
    ghost leader: { HasLeaders list places leaders count },
}

impl<const N: usize, const G: usize> Waiting<N, G> {
    ghost use Rattle.std.specs.Prelude.{◌↔◌, IsTrue};
    ghost use Rattle.waiting.specs.Waiting.{LedBut, Led, New, Entered, Risen, Taken};

    // None waits.
    pub fn new() -> Self
        ensures { result.count ≡ 0 }
    {
        Waiting {
            list: [0; N],
            places: [0; N],
            leaders: [0; G],
            count: 0,
        }
    }

    // Whether no step waits.
    pub fn is_empty(&self) -> bool
        ensures { IsTrue result ↔ (self.now.count ≡ 0) }
    {
        self.count == 0
    }

    // Step y, which does not wait yet, is put at the end of the list.
    pub fn enter(&mut self, y: usize, gains: &[u64])
        requires led_but { LedBut y gains.now self.old }
        requires new { New gains.now self.old y }
        ensures { Entered gains.now y self.old self.new }
    {
        let k = self.count;
        self.list[k] = y as u16;
        self.places[y] = k as u16;
        self.count = k + 1;
        if k % GROUP == 0 {
            self.leaders[k / GROUP] = y as u16;
            return;
        }
        lead(y, k / GROUP, gains, &mut self.leaders);
    }

    // The gain of step y has risen: it may lead its group now, where it waits.
    pub fn rise(&mut self, y: usize, gains: &[u64])
        requires led_but { LedBut y gains.now self.old }
        requires step_in { y < N }
        ensures { Risen gains.now self.old self.new }
    {
        let j = self.places[y] as usize;
        if j < self.count && self.list[j] as usize == y {
            lead(y, j / GROUP, gains, &mut self.leaders);
        }
    }

    // Takes a step of largest gain out of the list, which has some; the last step gets its place. Gives back the step.
    pub fn take(&mut self, gains: &[u64]) -> usize
        requires led { Led gains.now self.old }
        requires some { 0 < self.old.count }
        ensures { Taken gains.now result self.old self.new }
    {
        let k = self.count - 1;
        let end = k / GROUP;
        let leaders = &self.leaders[..];
        let x = largest(&leaders[..end + 1], gains) as usize;
        let j = self.places[x] as usize;
        let last = self.list[k];
        let ended = self.leaders[end];
        self.list[j] = last;
        self.places[last as usize] = j as u16;
        self.count = k;
        regroup(j / GROUP, gains, &self.list[..k], &mut self.leaders);
        if ended == last {
            regroup(end, gains, &self.list[..k], &mut self.leaders);
        }
        x
    }
}
