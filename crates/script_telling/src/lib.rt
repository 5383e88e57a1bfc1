// What a command tells beside the tables: the bytes that it prints, the name that it declares, the record after it, and whether it ends the script.
#![tactic(auto)]

ghost use Rattle.std.specs.Prelude.{◌≡◌, ℕ, ◌+◌, ◌-◌, ◌≤◌, ◌<◌, length};
ghost use Rattle.meaning.specs.Bounds.{STEPS, MARKS, ASKED, NAME_BYTES, ROOM};
ghost use Rattle.meaning.specs.Tables.{at};
ghost use Rattle.names.specs.Names.{Shelved, IndexRoom};
ghost use Rattle.write.specs.Written.{over};
ghost use Rattle.reading.specs.declared.Kind.{Kind};
ghost use Rattle.script_meaning.specs.Effect.{UNSUPPORTED};
ghost use Rattle.script_telling.specs.Telling.{printed, noted, is_exit, Declares};

use reading::Kind;
use script_meaning::Notes;

// The record after a command that was carried out: clash says whether a rule did not fit, marks how many marks are open after it.
pub fn notes_after(c: Kind, notes: Notes, clash: bool, marks: u32) -> Notes
    requires names_bound { notes.names ≤ STEPS }
    requires marks_bound { marks ≤ MARKS }
    ensures { result ≡ noted c notes clash marks }
{
    match c {
        Kind::SetLogic => script_meaning::logic_set(notes),
        Kind::Declare(_, _) => script_meaning::one_named(notes),
        Kind::Assert(_) => {
            if clash {
                return script_meaning::at_level(notes, marks + 1);
            }
            script_meaning::forgotten(notes)
        }
        Kind::Push(_) => script_meaning::forgotten(notes),
        Kind::Pop(_) => {
            if marks + 1 < notes.broken {
                return script_meaning::at_level(notes, 0);
            }
            script_meaning::forgotten(notes)
        }
        Kind::CheckSat => script_meaning::sat_told(notes),
        Kind::GetValue(_) => notes,
        Kind::Exit => script_meaning::forgotten(notes),
    }
}

// Whether the command is exit.
pub fn is_exit(c: Kind) -> bool
    ensures { result ≡ is_exit c }
{
    matches!(c, Kind::Exit)
}

// Prints what the command prints, from place to of out on, and gives back how many bytes that is. The names asked for stand in the column, by their steps.
pub fn print(
    c: Kind,
    broken: u32,
    column: &[u16],
    n: usize,
    names: &[u8],
    lens: &[u8],
    days: &[u32],
    out: &mut [u8],
    to: usize,
) -> usize
    requires shelved { Shelved n names.now lens.now }
    requires by_index { (k : ℕ) → c ≡ Kind.GetValue k → (k ≤ ASKED) × (k ≤ length column.now) }
    requires by_index_2 { (k : ℕ) → c ≡ Kind.GetValue k → (i : ℕ) → i < k → at column.now i < n }
    requires in_bounds { STEPS ≤ length days.now }
    requires to_in_bounds { to + ROOM ≤ length out.old }
    ensures out_after { out.new ≡ over out.old to (printed c broken names.now lens.now days.now column.now) }
    ensures value { result ≡ length (printed c broken names.now lens.now days.now column.now) }
{
    match c {
        Kind::CheckSat => {
            if broken == 0 {
                return write::word(out, to, b"sat\n") - to;
            }
            write::word(out, to, b"unsat\n") - to
        }
        Kind::GetValue(k) => values::put_values(k, column, n, names, lens, days, out, to) - to,
        Kind::SetLogic => 0,
        Kind::Declare(_, _) => 0,
        Kind::Assert(_) => 0,
        Kind::Push(_) => 0,
        Kind::Pop(_) => 0,
        Kind::Exit => 0,
    }
}

// Prints `unsupported` from place to of out on, and gives back how many bytes that is.
pub fn print_unsupported(out: &mut [u8], to: usize) -> usize
    requires { to + ROOM ≤ length out.old }
    ensures { (out.new ≡ over out.old to UNSUPPORTED) × (result ≡ length UNSUPPORTED) }
{
    write::word(out, to, b"unsupported\n") - to
}

// Declares the name of a declare-fun, under number n.
pub fn declare(
    c: Kind,
    s: &[u8],
    n: usize,
    names: &mut [u8],
    lens: &mut [u8],
    hashes: &mut [u16],
    heads: &mut [u16],
    nexts: &mut [u16],
)
    requires shelved { Shelved n names.old lens.old }
    requires index_room { IndexRoom hashes.old heads.old nexts.old }
    requires by_index { (a b : ℕ) → c ≡ Kind.Declare a b → (a ≤ b) × ((b - a ≤ NAME_BYTES) × ((b ≤ length s.now) × (n + 1 ≤ STEPS))) }
    ensures { Declares c s.now n names.old lens.old hashes.old heads.old nexts.old
        names.new lens.new hashes.new heads.new nexts.new }
{
    match c {
        Kind::Declare(a, b) => names::declare(names, lens, hashes, heads, nexts, n, &s[a..b]),
        Kind::SetLogic => {}
        Kind::Assert(_) => {}
        Kind::Push(_) => {}
        Kind::Pop(_) => {}
        Kind::CheckSat => {}
        Kind::GetValue(_) => {}
        Kind::Exit => {}
    }
}
