// The types that every script call's contract shares. What they mean stands in specs/.
#![tactic(auto)]

ghost use Rattle.std.specs.Prelude.{◌≡◌, ◌≤◌};
ghost use Rattle.meaning.specs.Bounds.{STEPS as STEPS_SPEC};
ghost use Rattle.script_meaning.specs.Record.{no_notes};
ghost use Rattle.script_meaning.specs.Effect.{forgotten, at_level, one_named, logic_set, sat_told};

// A script has this many steps, as many as there can be.
pub const STEPS: u32 = meaning::STEPS as u32;

// The script's record: how many names are declared, whether the logic is set, the contradictory level counted from 1 (0 where there is none), and whether
// the last check-sat printed sat and only get-value and unsupported commands came since.
#[derive(Clone, Copy)]
pub struct Notes {
    pub names: u32,
    pub logic: bool,
    pub broken: u32,
    pub sat: bool,
}

// The empty record.
pub fn no_notes() -> Notes
    ensures { result ≡ no_notes }
{
    Notes {
        names: 0,
        logic: false,
        broken: 0,
        sat: false,
    }
}

// The record after a command that forgets a remembered sat, and changes nothing else.
pub fn forgotten(notes: Notes) -> Notes
    ensures { result ≡ forgotten notes }
{
    at_level(notes, notes.broken)
}

// The same, with so much for the contradictory level.
pub fn at_level(notes: Notes, broken: u32) -> Notes
    ensures { result ≡ at_level broken notes }
{
    Notes {
        broken,
        sat: false,
        ..notes
    }
}

// The same, with one name more.
pub fn one_named(notes: Notes) -> Notes
    requires { notes.names ≤ STEPS_SPEC }
    ensures { result ≡ one_named notes }
{
    Notes {
        names: notes.names + 1,
        sat: false,
        ..notes
    }
}

// The same, with the logic set.
pub fn logic_set(notes: Notes) -> Notes
    ensures { result ≡ logic_set notes }
{
    Notes {
        logic: true,
        sat: false,
        ..notes
    }
}

// The record after check-sat: it remembers whether sat was printed.
pub fn sat_told(notes: Notes) -> Notes
    ensures { result ≡ sat_told notes }
{
    Notes {
        sat: notes.broken == 0,
        ..notes
    }
}
