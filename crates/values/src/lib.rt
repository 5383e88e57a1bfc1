// What get-value prints: the names with their days.
#![tactic(auto)]

ghost use Rattle.std.specs.Prelude.{◌≡◌, ℕ, ◌+◌, ◌<◌, ◌≤◌, length};
ghost use Rattle.meaning.specs.Bounds.{STEPS, ASKED, ROOM};
ghost use Rattle.meaning.specs.Tables.{at};
ghost use Rattle.names.specs.Names.{Shelved};
ghost use Rattle.write.specs.Written.{over};
ghost use Rattle.script_meaning.specs.Effect.{pair};
ghost use Rattle.values.specs.Pair.{gap, row_values};

// What stands before a pair: a space where it is later than the first, and nothing before the first.
fn gap_before(later: bool) -> &'static [u8]
    ensures { result.now ≡ gap later }
{
    if later { b" " } else { b"" }
}

// Writes the name with its day, in brackets, and gives back the place past it.
fn put_pair(name: &[u8], day: u32, out: &mut [u8], to: usize) -> usize
    requires { to + length (pair name.now day) ≤ length out.old }
    ensures { (out.new ≡ over out.old to (pair name.now day)) × (result ≡ to + length (pair name.now day)) }
{
    let e = write::word(out, to, b"(");
    let e = write::word(out, e, name);
    let e = write::word(out, e, b" ");
    let e = write::number(out, e, day);
    write::word(out, e, b")")
}

// Writes the names of the first k steps of the column with their days, from place to of out on, and gives back the place past what was written.
pub fn put_values(
    k: usize,
    column: &[u16],
    n: usize,
    names: &[u8],
    lens: &[u8],
    days: &[u32],
    out: &mut [u8],
    to: usize,
) -> usize
    requires shelved { Shelved n names.now lens.now }
    requires k_bound { k ≤ ASKED }
    requires k_in_bounds { k ≤ length column.now }
    requires by_index { (i : ℕ) → i < k → at column.now i < n }
    requires in_bounds { STEPS ≤ length days.now }
    requires to_in_bounds { to + ROOM ≤ length out.old }
    ensures out_after { out.new ≡ over out.old to (row_values names.now lens.now days.now column.now k) }
    ensures value { result ≡ to + length (row_values names.now lens.now days.now column.now k) }
{
    let mut e = write::word(out, to, b"(");
    for i in 0..k {
        let step = lent::number_at(column, i);
        let from = meaning::NAME_BYTES * step;
        let past = from + lens[step] as usize;
        e = write::word(out, e, gap_before(0 < i));
        e = put_pair(&names[from..past], days[step], out, e);
    }
    write::word(out, e, b")\n")
}
