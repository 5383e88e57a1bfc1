// One script command on tables and a record that are known to be sound: it is read, judged, and where nothing stands against it printed, done and noted.
#![tactic(auto)]

ghost use Rattle.std.specs.Prelude.{◌≡◌, ℕ, ◌+◌, ◌≤◌, length};
ghost use Rattle.meaning.specs.Bounds.{RULES, ROOM, DONE};
ghost use Rattle.meaning.specs.Promise.{First};
ghost use Rattle.text.specs.Table.{TABLE};
ghost use Rattle.lent.specs.Lent.{columns};
ghost use Rattle.reading.specs.Tree.{Command};
ghost use Rattle.reading.specs.Reading.{Read, reading};
ghost use Rattle.reading.specs.Heard.{stopped};
ghost use Rattle.script_meaning.specs.Effect.{Does};
ghost use Rattle.script_meaning.specs.Commands.{command_needs};
ghost use Rattle.script_telling.specs.Telling.{is_exit};
ghost use Rattle.script_command.specs.Carrying.{in_hand, Maintained, Ready, Heeded, Carries, Unread};

use meaning::Counts;
use names::Names;
use reading::{Kind, Stop};
use script_meaning::Notes;

// What a text came to: the refusal's number, 0 where its command was carried out; the counts and the record after it; how many bytes were read and written; whether it
// was exit.
#[derive(Drop)]
pub struct Carried {
    pub number: u32,
    pub counts: Counts,
    pub notes: Notes,
    pub read: usize,
    pub written: usize,
    pub ended: bool,
}

// Carries out a command that nothing stands against; it ends at place past of the text.
fn perform(
    c: Kind,
    s: &[u8],
    past: usize,
    row_xs: &[u16],
    row_ys: &[u16],
    row_cs: &[i32],
    counts: Counts,
    notes: Notes,
    xs: &mut [u16],
    ys: &mut [u16],
    cs: &mut [i32],
    days: &mut [u32],
    levels: &mut [u8],
    heads: &mut [u16],
    nexts: &mut [u16],
    kept: &mut [levels::Row],
    names: &mut [u8],
    lens: &mut [u8],
    hashes: &mut [u16],
    name_heads: &mut [u16],
    name_nexts: &mut [u16],
    out: &mut [u8],
    to: usize,
    e: u32,
) -> Carried
    requires ready { Ready c s.now notes.names notes.broken e (columns row_xs.now row_ys.now row_cs.now) counts }
    requires maintained { Maintained e
        (in_hand counts xs.old ys.old cs.old days.old levels.old notes names.old lens.old out.old)
        heads.old nexts.old kept.old hashes.old name_heads.old name_nexts.old }
    requires to_in_bounds { to + ROOM ≤ length out.old }
    requires names_le_e { notes.names ≤ e }
    ensures number_value { (result.number ≡ 0) × ((result.read ≡ past) × (result.ended ≡ is_exit c)) }
    ensures does { (d : Command) (i : ℕ) →
        Heeded d s.now notes.names names.old lens.old c (columns row_xs.now row_ys.now row_cs.now) →
        First (command_needs d (in_hand counts xs.old ys.old cs.old days.old levels.old notes names.old lens.old out.old)) DONE →
        Does (Read.got d i) to (in_hand counts xs.old ys.old cs.old days.old levels.old notes names.old lens.old out.old) result.written (in_hand result.counts xs.new ys.new cs.new days.new levels.new result.notes names.new lens.new out.new)
        × Maintained e (in_hand result.counts xs.new ys.new cs.new days.new levels.new result.notes names.new lens.new out.new) heads.new nexts.new kept.new hashes.new name_heads.new name_nexts.new }
{
    let n = notes.names as usize;
    let written = script_telling::print(c, notes.broken, row_xs, n, names, lens, days, out, to);
    let moved = script_moving::move_tables(
        c,
        notes.broken,
        row_xs,
        row_ys,
        row_cs,
        counts,
        xs,
        ys,
        cs,
        days,
        levels,
        heads,
        nexts,
        kept,
        e,
    );
    script_telling::declare(c, s, n, names, lens, hashes, name_heads, name_nexts);
    let now = moved.counts;
    Carried {
        number: 0,
        counts: now,
        notes: script_telling::notes_after(c, notes, moved.clash, now.marks),
        read: past,
        written: written,
        ended: script_telling::is_exit(c),
    }
}

// What becomes of a text whose reading stopped so: SYNTAX where it begins with no command, since that comes first; SYNTAX, SIZE, or `unsupported` is printed.
fn unread(
    s: &[u8],
    tab: &[u8; text::PLACES],
    stop: Stop,
    counts: Counts,
    notes: Notes,
    out: &mut [u8],
    to: usize,
) -> Carried
    requires tab_value { tab.now ≡ TABLE }
    requires to_in_bounds { to + ROOM ≤ length out.old }
    ensures { reading s.now ≡ stopped stop → Unread s.now to counts notes out.old result out.new }
{
    let Some(size) = span::span_of(s, tab) else {
        return refused(meaning::SYNTAX, counts, notes);
    };
    match stop {
        Stop::Wrong(_) => refused(meaning::SYNTAX, counts, notes),
        Stop::Size(_) => refused(meaning::SIZE, counts, notes),
        Stop::Unsupported(_) => Carried {
            number: 0,
            counts,
            notes,
            read: size,
            written: script_telling::print_unsupported(out, to),
            ended: false,
        },
    }
}

// A refusal: nothing was read or written.
fn refused(number: u32, counts: Counts, notes: Notes) -> Carried
    ensures { (result.number ≡ number) × ((result.counts ≡ counts) × ((result.notes ≡ notes) × ((result.read ≡ 0) × (result.written ≡ 0)))) }
{
    Carried {
        number: number,
        counts: counts,
        notes: notes,
        read: 0,
        written: 0,
        ended: false,
    }
}

// Carries out the command that the text s begins with. A refusal changes nothing but the rows. The names and the rules held speak of steps below e alone, so that no other
// step is looked at where a rule is added.
pub fn carry(
    s: &[u8],
    tab: &[u8; text::PLACES],
    row_xs: &mut [u16],
    row_ys: &mut [u16],
    row_cs: &mut [i32],
    counts: Counts,
    notes: Notes,
    xs: &mut [u16],
    ys: &mut [u16],
    cs: &mut [i32],
    days: &mut [u32],
    levels: &mut [u8],
    heads: &mut [u16],
    nexts: &mut [u16],
    kept: &mut [levels::Row],
    names: &mut [u8],
    lens: &mut [u8],
    hashes: &mut [u16],
    name_heads: &mut [u16],
    name_nexts: &mut [u16],
    out: &mut [u8],
    to: usize,
    e: u32,
) -> Carried
    requires tab_value { tab.now ≡ TABLE }
    requires in_bounds { RULES ≤ length row_xs.old }
    requires row_xs_in_bounds { length row_xs.old ≤ length row_ys.old }
    requires row_xs_in_bounds_2 { length row_xs.old ≤ length row_cs.old }
    requires maintained { Maintained e
        (in_hand counts xs.old ys.old cs.old days.old levels.old notes names.old lens.old out.old)
        heads.old nexts.old kept.old hashes.old name_heads.old name_nexts.old }
    requires to_in_bounds { to + ROOM ≤ length out.old }
    requires names_le_e { notes.names ≤ e }
    ensures carries { Carries s.now to
        (in_hand counts xs.old ys.old cs.old days.old levels.old notes names.old lens.old out.old)
        result
        (in_hand result.counts xs.new ys.new cs.new days.new levels.new result.notes names.new lens.new out.new) }
    ensures maintained_2 { Maintained e
        (in_hand result.counts xs.new ys.new cs.new days.new levels.new result.notes names.new lens.new out.new)
        heads.new nexts.new kept.new hashes.new name_heads.new name_nexts.new }
{
    let declared = Names {
        letters: names,
        lens,
        hashes,
        heads: name_heads,
        nexts: name_nexts,
        count: notes.names as usize,
    };
    let h = match reading::read_command(s, tab, declared, row_xs, row_ys, row_cs) {
        Ok(h) => h,
        Err(stop) => return unread(s, tab, stop, counts, notes, out, to),
    };
    if let Err(refusal) = judging::judge(h.kind, h.fault, counts, notes) {
        return refused(refusal.number(), counts, notes);
    }
    perform(
        h.kind, s, h.past, row_xs, row_ys, row_cs, counts, notes, xs, ys, cs, days, levels, heads,
        nexts, kept, names, lens, hashes, name_heads, name_nexts, out, to, e,
    )
}
