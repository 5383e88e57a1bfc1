// The script's record as C lends it, with the start and the command of a script over it.
#![tactic(auto)]

ghost use Rattle.std.specs.Prelude.{◌≡◌, List, ℕ, cond};
ghost use Rattle.meaning.specs.Promise.{Obeys, bare, gave};
ghost use Rattle.export_record.specs.Records.{FlagsFit, notes_of, Handed, Brought, lent_by_c, start_by_c, command_by_c};

use meaning::Counts;
use script_meaning::Notes;

// The script's record as C lends it: how many names are declared; whether the logic is set, 1 or 0; the contradictory level counted from 1, 0 where there is
// none; whether the last check-sat printed sat and only get-value and unsupported commands came since, 1 or 0. Its fields lie in this order.
#[repr(C)]
#[derive(Clone, Copy)]
pub struct Record {
    pub names: u32,
    pub logic: u32,
    pub broken: u32,
    pub sat: u32,
}

// The number given back, with the counts and the record as they are after the call.
#[derive(Drop)]
pub struct ScriptTold {
    pub counts: Counts,
    pub kept: Record,
    pub number: u32,
}

// The notes of a record: what it says; where a flag is neither 0 nor 1, more names than there may be.
fn notes_for(kept: Record) -> Notes
    ensures { Handed kept result }
{
    if 1 < kept.logic {
        return Notes {
            names: 4294967295,
            logic: false,
            broken: 0,
            sat: false,
        };
    }
    if 1 < kept.sat {
        return Notes {
            names: 4294967295,
            logic: false,
            broken: 0,
            sat: false,
        };
    }
    Notes {
        names: kept.names,
        logic: kept.logic == 1,
        broken: kept.broken,
        sat: kept.sat == 1,
    }
}

// A flag as a number.
fn bit(flag: bool) -> u32
    ensures { result ≡ cond flag 1 0 }
{
    if flag {
        return 1;
    }
    0
}

// The record after a call: that of the notes where the call was carried out, else the record as it was.
fn brought(number: u32, notes: Notes, kept: Record) -> Record
    ensures { Brought number notes kept result }
{
    if 0 < number {
        return kept;
    }
    Record {
        names: notes.names,
        logic: bit(notes.logic),
        broken: notes.broken,
        sat: bit(notes.sat),
    }
}

// Start: its number, the counts and the record after it. Any record will do; it is emptied.
pub fn start(
    counts: Counts,
    kept: Record,
    xs: &[u16],
    ys: &[u16],
    cs: &[i32],
    days: &mut [u32],
    levels: &mut [u8],
    wxs: &[u16],
    wys: &[u16],
    wcs: &[i32],
    names: &[u8],
    lens: &[u8],
) -> ScriptTold
    ensures { (out : List ℕ) →
        Obeys
        (start_by_c (lent_by_c counts xs.now ys.now cs.now days.old levels.old wxs.now wys.now wcs.now kept names.now lens.now out))
        (lent_by_c counts xs.now ys.now cs.now days.old levels.old wxs.now wys.now wcs.now kept names.now lens.now out)
        (bare result.number)
        (lent_by_c result.counts xs.now ys.now cs.now days.new levels.new wxs.now wys.now wcs.now result.kept names.now lens.now out) }
{
    let mut opened = counts;
    let mut noted = script_meaning::no_notes();
    let started = script_calls::start(
        &mut opened,
        &mut noted,
        xs,
        ys,
        cs,
        days,
        levels,
        wxs,
        wys,
        wcs,
        names,
        lens,
    );
    let number = meaning::number(started);
    let after = brought(number, noted, kept);
    ScriptTold {
        counts: opened,
        kept: after,
        number: number,
    }
}

// Command: its number, the counts and the record after it; `read` and `written` are the bytes read and the bytes written, both 0 on a refusal. It is DAMAGED too
// where a flag of the record is neither 0 nor 1.
pub fn command(
    text: &[u8],
    counts: Counts,
    kept: Record,
    xs: &mut [u16],
    ys: &mut [u16],
    cs: &mut [i32],
    days: &mut [u32],
    levels: &mut [u8],
    wxs: &[u16],
    wys: &[u16],
    wcs: &[i32],
    names: &mut [u8],
    lens: &mut [u8],
    out: &mut [u8],
    read: &mut usize,
    written: &mut usize,
) -> ScriptTold
    ensures { Obeys
        (command_by_c text.now (lent_by_c counts xs.old ys.old cs.old days.old levels.old wxs.now wys.now wcs.now kept names.old lens.old out.old))
        (lent_by_c counts xs.old ys.old cs.old days.old levels.old wxs.now wys.now wcs.now kept names.old lens.old out.old)
        (gave result.number read.new written.new)
        (lent_by_c result.counts xs.new ys.new cs.new days.new levels.new wxs.now wys.now wcs.now result.kept names.new lens.new out.new) }
{
    let notes = notes_for(kept);
    let reply = script_calls::command(
        text, counts, notes, xs, ys, cs, days, levels, wxs, wys, wcs, names, lens, out,
    );
    let counted = reply.counts;
    let noted = reply.notes;
    let number = reply.number;
    *read = reply.read;
    *written = reply.written;
    let after = brought(number, noted, kept);
    ScriptTold {
        counts: counted,
        kept: after,
        number: number,
    }
}
