// Whether a command that was read may be carried out: MODE; then the fault of its names and amounts; then FULL, for `pop` NOMARK.
#![tactic(auto)]

ghost use Rattle.std.specs.Prelude.{◌≡◌, ◌≤◌, true, false};
ghost use Rattle.meaning.specs.declared.Counts.{Counts};
ghost use Rattle.meaning.specs.Bounds.{RULES, MARKS, DONE, MODE};
ghost use Rattle.meaning.specs.Promise.{First, number_told};
ghost use Rattle.reading.specs.Tree.{Command};
ghost use Rattle.reading.specs.Saying.{said_needs};
ghost use Rattle.reading.specs.Heard.{kind_of, noted_as};
ghost use Rattle.script_meaning.specs.Record.{Lent, Known};
ghost use Rattle.script_meaning.specs.Commands.{mode_needs, room_needs, command_needs};
ghost use Rattle.judging.specs.Judged.{Judges};

use meaning::{Counts, Refusal};
use reading::Kind;
use script_meaning::Notes;

// MODE where the logic is not set.
fn logic_needed(notes: Notes) -> Result<(), Refusal>
    ensures { (notes.logic ≡ true → number_told result ≡ DONE) × (notes.logic ≡ false → number_told result ≡ MODE) }
{
    if notes.logic {
        return Ok(());
    }
    Err(Refusal::Mode)
}

// MODE where a command of this kind may not stand here.
fn mode_of(kind: Kind, notes: Notes) -> Result<(), Refusal>
    ensures { (counts : Counts) → Judges mode_needs kind counts notes (number_told result) }
{
    match kind {
        Kind::SetLogic => {
            if notes.logic {
                return Err(Refusal::Mode);
            }
            Ok(())
        }
        Kind::GetValue(_) => {
            if !notes.sat {
                return Err(Refusal::Mode);
            }
            logic_needed(notes)
        }
        Kind::Exit => Ok(()),
        Kind::Declare(_, _) => logic_needed(notes),
        Kind::Assert(_) => logic_needed(notes),
        Kind::Push(_) => logic_needed(notes),
        Kind::Pop(_) => logic_needed(notes),
        Kind::CheckSat => logic_needed(notes),
    }
}

// FULL where there is no place for what a command of this kind adds, NOMARK where there are not the levels that it closes.
fn room_of(kind: Kind, counts: Counts, notes: Notes) -> Result<(), Refusal>
    requires rules_bound { counts.rules ≤ RULES }
    requires marks_bound { counts.marks ≤ MARKS }
    ensures { Judges room_needs kind counts notes (number_told result) }
{
    match kind {
        Kind::Declare(_, _) => {
            if meaning::STEPS <= notes.names as usize {
                return Err(Refusal::Full);
            }
            Ok(())
        }
        Kind::Assert(k) => {
            if notes.broken == 0 && meaning::RULES - (counts.rules as usize) < k {
                return Err(Refusal::Full);
            }
            Ok(())
        }
        Kind::Push(k) => {
            let left = meaning::MARKS - (counts.marks as usize);
            if (left as u64) < k {
                return Err(Refusal::Full);
            }
            Ok(())
        }
        Kind::Pop(k) => {
            if (counts.marks as u64) < k {
                return Err(Refusal::NoMark);
            }
            Ok(())
        }
        Kind::SetLogic => Ok(()),
        Kind::CheckSat => Ok(()),
        Kind::GetValue(_) => Ok(()),
        Kind::Exit => Ok(()),
    }
}

// The first need of a command that is not met, where fault is the first fault of its names and amounts.
pub fn judge(
    kind: Kind,
    fault: Option<Refusal>,
    counts: Counts,
    notes: Notes,
) -> Result<(), Refusal>
    requires rules_bound { counts.rules ≤ RULES }
    requires marks_bound { counts.marks ≤ MARKS }
    ensures { (c : Command) (l : Lent) → kind ≡ kind_of c → l.tables.counts ≡ counts → l.notes ≡ notes → First (said_needs (Known l) c) (noted_as fault) → First (command_needs c l) (number_told result) }
{
    mode_of(kind, notes)?;
    match fault {
        Some(refusal) => Err(refusal),
        None => room_of(kind, counts, notes),
    }
}
