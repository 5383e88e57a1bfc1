// The readers of a command's parts, each from a place in the text on.
ghost use Rattle.std.specs.Prelude.{◌≡◌, ◌≤◌, ◌<◌, ℕ, List, [], ◌∷◌, true, false, length, IfOk, MatchResult};
ghost use Rattle.meaning.specs.Bounds.{DEPTH, NAME};
ghost use Rattle.meaning.specs.Promise.{First, needs};
ghost use Rattle.meaning.specs.Tables.{Columns};
ghost use Rattle.text.specs.Table.{TABLE};
ghost use Rattle.text.specs.Lexicon.{END, OPEN, NUMERAL, CAP, token_at, cut, number};
ghost use Rattle.text.specs.Numbered.{code_of, numbered};
ghost use Rattle.words.specs.Words.{compares};
ghost use Rattle.names.specs.Names.{AllDifferent};
ghost use Rattle.reading.specs.Tree.{said_by, Command};
ghost use Rattle.reading.specs.Reading.{then, lexeme, expect, expect_word, expect_name, closed, amount, comparison, term, conjoined, asked, declared, headed, unbracketed, reading};
ghost use Rattle.reading.specs.Saying.{KnownIn};
ghost use Rattle.reading.specs.Heard.{stopped, Hears, NoneReserved, noted_as, told};
ghost use Rattle.reading.specs.Parts.{opening, Standing, SymbolAt, NoSymbolAt, StepOf, capped, AtomOf, CommandSaid};

use crate::atom::Atom;
use crate::rows::Rows;
use crate::{Heard, Kind, Stop};
use meaning::Refusal;
use names::Names;
use text::Tok;

// The text, the table of its tokens, and the names declared. They are all different, and none is a reserved word.
#[derive(Clone, Copy)]
pub struct Reader<'a> {
    pub text: &'a [u8],
    pub tab: &'a [u8; text::PLACES],
    pub names: Names<'a>,
    ghost table: { tab.now ≡ TABLE },
    ghost all_different: { AllDifferent names.count names.letters.now names.lens.now },
    ghost none_reserved: { NoneReserved names.count names.letters.now names.lens.now },
}

impl<'a> Reader<'a> {
    ghost use Rattle.reading.specs.Rows.{Kept, Fresh, TermPut, NamesPut, columns_of};

    // The first token from place at on.
    fn token(&self, at: usize) -> Tok
        ensures { Standing self.now.text.now at result }
    {
        text::token(self.text, self.tab, at)
    }

    // The bytes of a token.
    fn lexeme(&self, t: Tok) -> &'a [u8]
        requires ordered { t.from ≤ t.to }
        requires within { t.to ≤ length self.now.text.now }
        ensures { result.now ≡ lexeme self.now.text.now (numbered t) }
    {
        &self.text[t.from..t.to]
    }

    // Reads a token of this kind.
    fn kind(&self, at: usize, kind: text::Kind) -> Result<usize, Stop>
        ensures { Hears (expect (code_of kind) self.now.text.now at) (λ _ e x. x ≡ e) result }
    {
        let t = self.token(at);
        if t.kind != kind {
            return Err(Stop::Wrong(t.from));
        }
        Ok(t.to)
    }

    // Reads the opening bracket of the text, which is its first byte.
    fn opening(&self) -> Result<usize, Stop>
        ensures { Hears (opening self.now.text.now) (λ _ e x. x ≡ e) result }
    {
        let t = self.token(0);
        if t.from != 0 || t.kind != text::Kind::Open {
            return Err(Stop::Wrong(t.from));
        }
        Ok(t.to)
    }

    // Reads a symbol.
    fn symbol(&self, at: usize) -> Result<Tok, Stop>
        ensures { MatchResult result (λ t. SymbolAt self.now.text.now at t) (λ e. NoSymbolAt self.now.text.now at e) }
    {
        let t = text::symbol(self.text, self.tab, at);
        if t.kind != text::Kind::Symbol {
            return Err(Stop::Wrong(t.from));
        }
        Ok(t)
    }

    // Reads this word.
    fn word(&self, at: usize, word: &[u8]) -> Result<usize, Stop>
        ensures { Hears (expect_word word.now self.now.text.now at) (λ _ e x. x ≡ e) result }
    {
        let t = self.symbol(at)?;
        if self.lexeme(t) != word {
            return Err(Stop::Wrong(t.from));
        }
        Ok(t.to)
    }

    // Stops at a symbol that is reserved or too long for a name.
    fn spare(&self, t: Tok) -> Result<(), Stop>
        requires ordered { t.from ≤ t.to }
        requires within { t.to ≤ length self.now.text.now }
        ensures { (i : ℕ) → SymbolAt self.now.text.now i t → Hears (expect_name self.now.text.now i) (λ _ e _. t.to ≡ e) result }
    {
        if words::is_reserved(self.lexeme(t)) {
            return Err(Stop::Wrong(t.from));
        }
        if meaning::NAME_BYTES < t.to - t.from {
            return Err(Stop::Size(t.from));
        }
        Ok(())
    }

    // Reads a name and looks it up: its step, where it is declared. What is declared is no reserved word and short, so that is asked of the others alone.
    fn name(&self, at: usize) -> Result<(Option<usize>, usize), Stop>
        ensures { Hears (expect_name self.now.text.now at) (λ w e x. (x.1 ≡ e) × StepOf self.now.names.count self.now.names.letters.now self.now.names.lens.now w.letters x.0) result }
    {
        let t = self.symbol(at)?;
        let step = self.names.find(self.lexeme(t));
        if step.is_none() {
            self.spare(t)?;
        }
        Ok((step, t.to))
    }

    // The number that the digits of a token say, cut at the cap.
    fn value(&self, t: Tok) -> u64
        requires ordered { t.from ≤ t.to }
        requires within { t.to ≤ length self.now.text.now }
        ensures { (result ≡ cut (number 0 (lexeme self.now.text.now (numbered t)))) × (result ≤ CAP) }
    {
        text::value(self.lexeme(t))
    }

    // Reads a numeral: the number that it says, cut at the cap.
    fn numeral(&self, at: usize) -> Result<(u64, usize), Stop>
        ensures heard { Hears (expect NUMERAL self.now.text.now at) (λ p e x. (x.1 ≡ e) × (x.0 ≡ cut (said_by p))) result }
        ensures small { IfOk result (λ x. x.0 ≤ CAP) }
    {
        let t = self.token(at);
        if t.kind != text::Kind::Numeral {
            return Err(Stop::Wrong(t.from));
        }
        Ok((self.value(t), t.to))
    }

    // Reads an amount: N or (- N).
    fn amount(&self, at: usize) -> Result<(i32, usize), Stop>
        ensures { Hears (amount self.now.text.now at) (λ m e x. (x.1 ≡ e) × (x.0 ≡ capped m)) result }
    {
        let t = self.token(at);
        match t.kind {
            text::Kind::Numeral => Ok((self.value(t) as i32, t.to)),
            text::Kind::Open => {
                let minus = self.word(t.to, b"-")?;
                let (n, past) = self.numeral(minus)?;
                let end = self.kind(past, text::Kind::Close)?;
                Ok((-(n as i32), end))
            }
            _ => Err(Stop::Wrong(t.from)),
        }
    }

    // Reads what stands in an atom after its operator.
    fn parts(&self, at: usize) -> Result<(Atom, usize), Stop>
        ensures { (w : List ℕ) → Hears (comparison w self.now.text.now at)
            (λ t e x. (x.1 ≡ e) × AtomOf self.now.names.count self.now.names.letters.now self.now.names.lens.now w x.0 t) result }
    {
        let open = self.kind(at, text::Kind::Open)?;
        let minus = self.word(open, b"-")?;
        let (first, x_end) = self.name(minus)?;
        let (second, y_end) = self.name(x_end)?;
        let close = self.kind(y_end, text::Kind::Close)?;
        let (amount, past) = self.amount(close)?;
        let end = self.kind(past, text::Kind::Close)?;
        let atom = Atom {
            first,
            second,
            amount,
        };
        Ok((atom, end))
    }

    // Reads an atom after its operator, under an odd number of `not` or not, and puts its rule.
    fn atom(&self, operator: &[u8], at: usize, odd: bool, rows: &mut Rows) -> Result<usize, Stop>
        requires compares { compares operator.now ≡ true }
        requires few { rows.old.count < at }
        ensures kept { Kept rows.old rows.new }
        ensures heard { Hears (comparison operator.now self.now.text.now at) (λ t e x. (x ≡ e) × TermPut self.now odd t rows.old rows.new x) result }
    {
        let (atom, end) = self.parts(at)?;
        rows.put(atom.turned(operator, odd));
        Ok(end)
    }

    // What stops the reading of a term at a token that is no opening bracket: a symbol is an operator without arguments, unsupported but for those that take some.
    fn unopened(&self, t: Tok) -> Stop
        requires ordered { t.from ≤ t.to }
        requires within { (code_of t.kind ≡ END → ⊥) → t.to ≤ length self.now.text.now }
        ensures { (i : ℕ) → numbered t ≡ token_at self.now.text.now i → unbracketed self.now.text.now i ≡ stopped result }
    {
        if t.kind == text::Kind::Symbol && !words::is_operator(self.lexeme(t)) {
            Stop::Unsupported(t.from)
        } else {
            Stop::Wrong(t.from)
        }
    }

    // Reads a term that may be d deep, under an odd number of `not` or not, and puts its rules.
    #[cycle(term_terms)]
    fn term(&self, at: usize, d: usize, odd: bool, rows: &mut Rows) -> Result<usize, Stop>
        requires { rows.old.count ≤ at }
        ensures kept { Kept rows.old rows.new }
        ensures heard { Hears (term d self.now.text.now odd at) (λ t e x. (x ≡ e) × TermPut self.now odd t rows.old rows.new x) result }
    {
        let t = self.token(at);
        if t.kind != text::Kind::Open {
            return Err(self.unopened(t));
        }
        if d == 0 {
            return Err(Stop::Size(t.from));
        }
        let u = self.symbol(t.to)?;
        let operator = self.lexeme(u);
        if words::is_comparison(operator) {
            return self.atom(operator, u.to, odd, rows);
        }
        if operator == b"not".as_slice() {
            let r = self.term(u.to, d - 1, !odd, rows)?;
            return self.kind(r, text::Kind::Close);
        }
        if operator == b"and".as_slice() && !odd {
            return self.terms(u.to, d - 1, rows);
        }
        Err(Stop::Unsupported(u.from))
    }

    // Reads two terms or more, each of which may be d deep, and the closing bracket; puts their rules.
    #[cycle(term_terms)]
    fn terms(&self, at: usize, d: usize, rows: &mut Rows) -> Result<usize, Stop>
        requires { rows.old.count ≤ at }
        ensures kept { Kept rows.old rows.new }
        ensures heard { Hears (conjoined (term d self.now.text.now false) self.now.text.now at) (λ t e x. (x ≡ e) × TermPut self.now false t rows.old rows.new x) result }
    {
        let mut i = self.term(at, d, false, rows)?;
        loop {
            i = self.term(i, d, false, rows)?;
            let t = self.token(i);
            if t.kind == text::Kind::Close {
                return Ok(t.to);
            }
        }
    }

    // Reads one name or more, at most ASKED, and the closing bracket; puts their steps.
    fn asked(&self, at: usize, rows: &mut Rows) -> Result<usize, Stop>
        requires { Fresh rows.old }
        ensures kept { Kept rows.old rows.new }
        ensures heard { Hears (asked self.now.text.now at) (λ ws e x. (x ≡ e) × NamesPut self.now ws rows.new) result }
    {
        let mut i = at;
        for k in 0..meaning::ASKED {
            let (step, past) = self.name(i)?;
            rows.put_name(step);
            let t = self.token(past);
            if t.kind == text::Kind::Close {
                return Ok(t.to);
            }
            i = past;
        }
        let over = self.token(i);
        self.name(i)?;
        Err(Stop::Size(over.from))
    }

    // Reads the closing bracket of a command, and gives the command.
    fn end(&self, at: usize, kind: Kind, fault: Option<Refusal>) -> Result<Heard, Stop>
        ensures { (c : Command) → Hears (closed self.now.text.now c at) (λ d e h. (d ≡ c) × (h ≡ told kind e fault)) result }
    {
        let past = self.kind(at, text::Kind::Close)?;
        Ok(Heard { kind, past, fault })
    }

    // Reads the rest of an `assert`.
    fn assert(&self, at: usize, rows: &mut Rows) -> Result<Heard, Stop>
        requires { Fresh rows.old }
        ensures kept { Kept rows.old rows.new }
        ensures heard { Hears (then (term DEPTH self.now.text.now false at) (λ t j. closed self.now.text.now (Command.assert t) j))
            (λ c e h. CommandSaid self.now.names.count self.now.names.letters.now self.now.names.lens.now c e h (columns_of rows.new)) result }
    {
        let r = self.term(at, meaning::DEPTH, false, rows)?;
        self.end(r, Kind::Assert(rows.count), rows.fault)
    }

    // NAME, where a name that is to be declared is declared already.
    fn clash(&self, word: &[u8]) -> Option<Refusal>
        ensures { First (needs NAME (KnownIn self.now.names.count self.now.names.letters.now self.now.names.lens.now word.now → ⊥) ∷ []) (noted_as result) }
    {
        if self.names.find(word).is_some() {
            Some(Refusal::Name)
        } else {
            None
        }
    }

    // Reads the rest of a `declare-fun`, and looks its name up.
    fn declare(&self, at: usize) -> Result<Heard, Stop>
        ensures { (rows : Columns) → Hears (declared self.now.text.now at)
            (λ c e h. CommandSaid self.now.names.count self.now.names.letters.now self.now.names.lens.now c e h rows) result }
    {
        let t = self.symbol(at)?;
        self.spare(t)?;
        let open = self.kind(t.to, text::Kind::Open)?;
        let close = self.kind(open, text::Kind::Close)?;
        let int = self.word(close, b"Int")?;
        let past = self.kind(int, text::Kind::Close)?;
        let fault = self.clash(self.lexeme(t));
        Ok(Heard {
            kind: Kind::Declare(t.from, t.to),
            past,
            fault,
        })
    }

    // Reads the rest of a `get-value`.
    fn get_value(&self, at: usize, rows: &mut Rows) -> Result<Heard, Stop>
        requires { Fresh rows.old }
        ensures kept { Kept rows.old rows.new }
        ensures heard { Hears (then (expect OPEN self.now.text.now at) (λ _ a. then (asked self.now.text.now a) (λ ws b. closed self.now.text.now (Command.get_value ws) b)))
            (λ c e h. CommandSaid self.now.names.count self.now.names.letters.now self.now.names.lens.now c e h (columns_of rows.new)) result }
    {
        let open = self.kind(at, text::Kind::Open)?;
        let r = self.asked(open, rows)?;
        self.end(r, Kind::GetValue(rows.count), rows.fault)
    }

    // Reads the command that the symbol t heads.
    fn headed(&self, t: Tok, rows: &mut Rows) -> Result<Heard, Stop>
        requires ordered { t.from ≤ t.to }
        requires within { t.to ≤ length self.now.text.now }
        requires fresh { Fresh rows.old }
        ensures kept { Kept rows.old rows.new }
        ensures heard { Hears (headed (lexeme self.now.text.now (numbered t)) t.from self.now.text.now t.to)
            (λ c e h. CommandSaid self.now.names.count self.now.names.letters.now self.now.names.lens.now c e h (columns_of rows.new)) result }
    {
        let name = self.lexeme(t);
        // Tests one by one: of a `match` on byte strings the proof is told the lengths alone.
        if name == b"assert".as_slice() {
            return self.assert(t.to, rows);
        }
        if name == b"declare-fun".as_slice() {
            return self.declare(t.to);
        }
        if name == b"check-sat".as_slice() {
            return self.end(t.to, Kind::CheckSat, None);
        }
        if name == b"push".as_slice() {
            let (levels, r) = self.numeral(t.to)?;
            return self.end(r, Kind::Push(levels), None);
        }
        if name == b"pop".as_slice() {
            let (levels, r) = self.numeral(t.to)?;
            return self.end(r, Kind::Pop(levels), None);
        }
        if name == b"get-value".as_slice() {
            return self.get_value(t.to, rows);
        }
        if name == b"set-logic".as_slice() {
            let r = self.word(t.to, b"QF_IDL")?;
            return self.end(r, Kind::SetLogic, None);
        }
        if name == b"exit".as_slice() {
            return self.end(t.to, Kind::Exit, None);
        }
        Err(Stop::Unsupported(t.from))
    }

    // Reads the command that the text begins with.
    pub fn command(&self, rows: &mut Rows) -> Result<Heard, Stop>
        requires { Fresh rows.old }
        ensures kept { Kept rows.old rows.new }
        ensures heard { Hears (reading self.now.text.now)
            (λ c e h. CommandSaid self.now.names.count self.now.names.letters.now self.now.names.lens.now c e h (columns_of rows.new)) result }
    {
        let open = self.opening()?;
        let name = self.symbol(open)?;
        self.headed(name, rows)
    }
}
