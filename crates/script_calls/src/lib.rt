// The two public calls of scripts. Each takes whatever it is lent, has no condition on it, and keeps the promise that its contract states: it tests the room,
// then whether the tables and the record are sound, and then does its work.
#![tactic(auto)]

ghost use Rattle.std.specs.Prelude.{◌≡◌, List, ℕ, ◌≤◌, ◌<◌, length};
ghost use Rattle.meaning.specs.declared.Counts.{Counts};
ghost use Rattle.meaning.specs.Bounds.{STEPS, RULES};
ghost use Rattle.meaning.specs.Tables.{Room};
ghost use Rattle.lent.specs.Lent.{tables};
ghost use Rattle.meaning.specs.Promise.{Obeys, gave, number_told, given};
ghost use Rattle.lent.specs.Decides.{Decides};
ghost use Rattle.text.specs.Table.{TABLE};
ghost use Rattle.names.specs.Names.{IndexRoom};
ghost use Rattle.script_meaning.specs.declared.Notes.{Notes};
ghost use Rattle.script_meaning.specs.Record.{lent, StartRoom, ScriptRoom, InForm};
ghost use Rattle.script_meaning.specs.Commands.{start_meaning, command_meaning};
ghost use Rattle.script_calls.specs.Testing.{NamesRoom, NameFine, NamesFine, NotesFine, RecordTested, StandTested, Entered};

use meaning::{Counts, Refusal};
use names::Names;
use script_meaning::Notes;
use text::{Kind, Tok};

// Whether the tables have room, those of the names too.
fn start_room(
    xs: &[u16],
    ys: &[u16],
    cs: &[i32],
    days: &[u32],
    levels: &[u8],
    wxs: &[u16],
    wys: &[u16],
    wcs: &[i32],
    names: &[u8],
    lens: &[u8],
) -> bool
    ensures { (counts : Counts) (notes : Notes) (out : List ℕ) → Decides result (StartRoom (lent counts xs.now ys.now cs.now days.now levels.now wxs.now wys.now wcs.now notes names.now lens.now out)) }
{
    if !sound::has_room(lent::Tables {
        rules: lent::Rules {
            xs: xs,
            ys: ys,
            cs: cs,
        },
        days: days,
        levels: levels,
        watched: lent::Rules {
            xs: wxs,
            ys: wys,
            cs: wcs,
        },
    }) {
        return false;
    }
    if names.len() < meaning::NAME_BYTES * meaning::STEPS {
        return false;
    }
    meaning::STEPS <= lens.len()
}

// Start: SHORT; else STEPS steps, no rules, marks or watched rules, every place free, day 0 for every step, and an empty record.
pub fn start(
    counts: &mut Counts,
    notes: &mut Notes,
    xs: &[u16],
    ys: &[u16],
    cs: &[i32],
    days: &mut [u32],
    levels: &mut [u8],
    wxs: &[u16],
    wys: &[u16],
    wcs: &[i32],
    names: &[u8],
    lens: &[u8],
) -> Result<(), Refusal>
    ensures { (out : List ℕ) →
        Obeys
        (start_meaning (lent counts.old xs.now ys.now cs.now days.old levels.old wxs.now wys.now wcs.now notes.old names.now lens.now out))
        (lent counts.old xs.now ys.now cs.now days.old levels.old wxs.now wys.now wcs.now notes.old names.now lens.now out)
        (given result)
        (lent counts.new xs.now ys.now cs.now days.new levels.new wxs.now wys.now wcs.now notes.new names.now lens.now out) }
{
    if !start_room(xs, ys, cs, days, levels, wxs, wys, wcs, names, lens) {
        return Err(Refusal::Short);
    }
    inner_watch::clear_days(meaning::STEPS, days);
    inner_watch::free_all(levels);
    *counts = meaning::steps_alone(script_meaning::STEPS);
    *notes = script_meaning::no_notes();
    Ok(())
}

// Whether the bytes are a name in form.
fn in_form(w: &[u8], tab: &[u8; text::PLACES]) -> bool
    requires { tab.now ≡ TABLE }
    ensures { Decides result (InForm w.now) }
{
    let whole = Tok {
        kind: Kind::Symbol,
        from: 0,
        to: w.len(),
    };
    w.len() <= meaning::NAME_BYTES && text::token(w, tab, 0) == whole && !words::is_reserved(w)
}

// Whether the name under number k has no more bytes than its places, and is in form.
fn name_fine(k: usize, names: &[u8], lens: &[u8], tab: &[u8; text::PLACES]) -> bool
    requires tab_value { tab.now ≡ TABLE }
    requires names_room { NamesRoom names.now lens.now }
    requires k_bound { k < STEPS }
    ensures { Decides result (NameFine names.now lens.now k) }
{
    let len = lens[k] as usize;
    if meaning::NAME_BYTES < len {
        return false;
    }
    let from = meaning::NAME_BYTES * k;
    let to = from + len;
    in_form(&names[from..to], tab)
}

// Whether the first n names are fine.
fn names_fine(n: usize, names: &[u8], lens: &[u8], tab: &[u8; text::PLACES]) -> bool
    requires tab_value { tab.now ≡ TABLE }
    requires names_room { NamesRoom names.now lens.now }
    requires n_bound { n ≤ STEPS }
    ensures { Decides result (NamesFine n names.now lens.now) }
{
    for k in 0..n {
        if !name_fine(k, names, lens, tab) {
            return false;
        }
    }
    true
}

// Whether the counts and the notes are as a sound record needs them.
fn notes_fine(counts: Counts, notes: Notes) -> bool
    ensures { Decides result (NotesFine counts notes) }
{
    if counts.steps != script_meaning::STEPS {
        return false;
    }
    if script_meaning::STEPS < notes.names {
        return false;
    }
    if counts.marks as u64 + 1 < notes.broken as u64 {
        return false;
    }
    if notes.broken == 0 {
        return true;
    }
    if notes.sat {
        return false;
    }
    true
}

// Whether the record is sound beyond the tables; where it is, hashes, heads and nexts are left with the index of its names.
fn record_fine(
    counts: Counts,
    notes: Notes,
    names: &[u8],
    lens: &[u8],
    tab: &[u8; text::PLACES],
    hashes: &mut [u16],
    heads: &mut [u16],
    nexts: &mut [u16],
) -> bool
    requires tab_value { tab.now ≡ TABLE }
    requires names_room { NamesRoom names.now lens.now }
    requires index_room { IndexRoom hashes.old heads.old nexts.old }
    ensures { RecordTested counts notes names.now lens.now result hashes.new heads.new nexts.new }
{
    if !notes_fine(counts, notes) {
        return false;
    }
    let n = notes.names as usize;
    if !names_fine(n, names, lens, tab) {
        return false;
    }
    names::index(names, lens, hashes, heads, nexts, n);
    let declared = Names {
        letters: names,
        lens,
        hashes,
        heads,
        nexts,
        count: n,
    };
    declared.different()
}

// Whether everything has room, the answer too.
fn command_room(
    xs: &[u16],
    ys: &[u16],
    cs: &[i32],
    days: &[u32],
    levels: &[u8],
    wxs: &[u16],
    wys: &[u16],
    wcs: &[i32],
    names: &[u8],
    lens: &[u8],
    out: &[u8],
) -> bool
    ensures { (counts : Counts) (notes : Notes) → Decides result (ScriptRoom 0 (lent counts xs.now ys.now cs.now days.now levels.now wxs.now wys.now wcs.now notes names.now lens.now out.now)) }
{
    if !start_room(xs, ys, cs, days, levels, wxs, wys, wcs, names, lens) {
        return false;
    }
    meaning::ROOM <= out.len()
}

// Whether the tables and the record, which have room, are sound; where they are, the lists are left with the chains of the rules and the index of the names.
fn stands(
    tab: &[u8; text::PLACES],
    counts: Counts,
    notes: Notes,
    xs: &[u16],
    ys: &[u16],
    cs: &[i32],
    days: &[u32],
    levels: &[u8],
    wxs: &[u16],
    wys: &[u16],
    wcs: &[i32],
    names: &[u8],
    lens: &[u8],
    heads: &mut [u16],
    nexts: &mut [u16],
    hashes: &mut [u16],
    name_heads: &mut [u16],
    name_nexts: &mut [u16],
) -> bool
    requires tab_value { tab.now ≡ TABLE }
    requires room { Room (tables counts xs.now ys.now cs.now days.now levels.now wxs.now wys.now wcs.now) }
    requires names_room { NamesRoom names.now lens.now }
    requires in_bounds { STEPS ≤ length heads.old }
    requires in_bounds_2 { RULES ≤ length nexts.old }
    requires index_room { IndexRoom hashes.old name_heads.old name_nexts.old }
    ensures { (out : List ℕ) → StandTested (lent counts xs.now ys.now cs.now days.now levels.now wxs.now wys.now wcs.now notes names.now lens.now out) result heads.new nexts.new hashes.new name_heads.new name_nexts.new }
{
    if !sound::is_sound(
        counts,
        lent::Tables {
            rules: lent::Rules {
                xs: xs,
                ys: ys,
                cs: cs,
            },
            days: days,
            levels: levels,
            watched: lent::Rules {
                xs: wxs,
                ys: wys,
                cs: wcs,
            },
        },
        heads,
        nexts,
    ) {
        return false;
    }
    record_fine(
        counts, notes, names, lens, tab, hashes, name_heads, name_nexts,
    )
}

// The first refusal before those of the text: SHORT, DAMAGED.
fn verdict(
    tab: &[u8; text::PLACES],
    counts: Counts,
    notes: Notes,
    xs: &[u16],
    ys: &[u16],
    cs: &[i32],
    days: &[u32],
    levels: &[u8],
    wxs: &[u16],
    wys: &[u16],
    wcs: &[i32],
    names: &[u8],
    lens: &[u8],
    out: &[u8],
    heads: &mut [u16],
    nexts: &mut [u16],
    hashes: &mut [u16],
    name_heads: &mut [u16],
    name_nexts: &mut [u16],
) -> Result<(), Refusal>
    requires tab_value { tab.now ≡ TABLE }
    requires in_bounds { STEPS ≤ length heads.old }
    requires in_bounds_2 { RULES ≤ length nexts.old }
    requires index_room { IndexRoom hashes.old name_heads.old name_nexts.old }
    ensures { Entered (lent counts xs.now ys.now cs.now days.now levels.now wxs.now wys.now wcs.now notes names.now lens.now out.now) (number_told result) heads.new nexts.new hashes.new name_heads.new name_nexts.new }
{
    if !command_room(xs, ys, cs, days, levels, wxs, wys, wcs, names, lens, out) {
        return Err(Refusal::Short);
    }
    if !stands(
        tab, counts, notes, xs, ys, cs, days, levels, wxs, wys, wcs, names, lens, heads, nexts,
        hashes, name_heads, name_nexts,
    ) {
        return Err(Refusal::Damaged);
    }
    Ok(())
}

// What a command gives back: the refusal's number, 0 where it was carried out; the bytes read and the bytes written; the counts and the record after it. Texts
// may be longer than a u32 says, so the bytes are counted by usize.
#[derive(Drop)]
pub struct CommandReply {
    pub counts: Counts,
    pub notes: Notes,
    pub number: u32,
    pub read: usize,
    pub written: usize,
}

// Command, with the table of tokens at hand.
fn command_by(
    text: &[u8],
    tab: &[u8; text::PLACES],
    counts: Counts,
    notes: Notes,
    xs: &mut [u16],
    ys: &mut [u16],
    cs: &mut [i32],
    days: &mut [u32],
    levels: &mut [u8],
    wxs: &[u16],
    wys: &[u16],
    wcs: &[i32],
    names: &mut [u8],
    lens: &mut [u8],
    out: &mut [u8],
) -> CommandReply
    requires { tab.now ≡ TABLE }
    ensures { Obeys
        (command_meaning text.now (lent counts xs.old ys.old cs.old days.old levels.old wxs.now wys.now wcs.now notes names.old lens.old out.old))
        (lent counts xs.old ys.old cs.old days.old levels.old wxs.now wys.now wcs.now notes names.old lens.old out.old)
        (gave result.number result.read result.written)
        (lent result.counts xs.new ys.new cs.new days.new levels.new wxs.now wys.now wcs.now result.notes names.new lens.new out.new) }
{
    let mut heads = [0u16; meaning::STEPS];
    let mut nexts = [0u16; meaning::RULES];
    let mut hashes = [0u16; meaning::STEPS];
    let mut name_heads = [0u16; names::BUCKETS];
    let mut name_nexts = [0u16; meaning::STEPS];
    let tested = verdict(
        tab,
        counts,
        notes,
        xs,
        ys,
        cs,
        days,
        levels,
        wxs,
        wys,
        wcs,
        names,
        lens,
        out,
        &mut heads,
        &mut nexts,
        &mut hashes,
        &mut name_heads,
        &mut name_nexts,
    );
    match tested {
        Ok(()) => {}
        Err(refusal) => {
            return CommandReply {
                counts,
                notes,
                number: refusal.number(),
                read: 0,
                written: 0,
            };
        }
    }
    let mut row_xs = [0u16; meaning::RULES];
    let mut row_ys = [0u16; meaning::RULES];
    let mut row_cs = [0i32; meaning::RULES];
    // No days are kept, since nothing is known of the order in which the rules were added.
    let kept = &mut [];
    let carried = script_command::carry(
        text,
        tab,
        &mut row_xs,
        &mut row_ys,
        &mut row_cs,
        counts,
        notes,
        xs,
        ys,
        cs,
        days,
        levels,
        &mut heads,
        &mut nexts,
        kept,
        names,
        lens,
        &mut hashes,
        &mut name_heads,
        &mut name_nexts,
        out,
        0,
        counts.steps,
    );
    let counted = carried.counts;
    let noted = carried.notes;
    CommandReply {
        counts: counted,
        notes: noted,
        number: carried.number,
        read: carried.read,
        written: carried.written,
    }
}

// Command: SHORT, DAMAGED, and then the refusals of the text; else the command is carried out on the text from
// its opening bracket on.
pub fn command(
    text: &[u8],
    counts: Counts,
    notes: Notes,
    xs: &mut [u16],
    ys: &mut [u16],
    cs: &mut [i32],
    days: &mut [u32],
    levels: &mut [u8],
    wxs: &[u16],
    wys: &[u16],
    wcs: &[i32],
    names: &mut [u8],
    lens: &mut [u8],
    out: &mut [u8],
) -> CommandReply
    ensures { Obeys
        (command_meaning text.now (lent counts xs.old ys.old cs.old days.old levels.old wxs.now wys.now wcs.now notes names.old lens.old out.old))
        (lent counts xs.old ys.old cs.old days.old levels.old wxs.now wys.now wcs.now notes names.old lens.old out.old)
        (gave result.number result.read result.written)
        (lent result.counts xs.new ys.new cs.new days.new levels.new wxs.now wys.now wcs.now result.notes names.new lens.new out.new) }
{
    let tab = text::TABLE;
    command_by(
        text, &tab, counts, notes, xs, ys, cs, days, levels, wxs, wys, wcs, names, lens, out,
    )
}
