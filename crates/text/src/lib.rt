// Tokens of a script, found from a place in its bytes; numerals read.
#![tactic(auto)]

ghost use Rattle.std.specs.Prelude.{◌≡◌, ◌+◌, ◌-◌, ◌<◌, ◌≤◌, length, get_or, drop, IfSome};
ghost use Rattle.std.specs.List.{position_or_len};
ghost use Rattle.text.specs.Lexicon.{class, grown, kind, A_SYMBOL as SYMBOLIC, whole, extent, piece_at, token_at, cut, number, line_end, start};
ghost use Rattle.text.specs.Numbered.{code_of, numbered};
ghost use Rattle.text.specs.Table.{TABLE as LEXICON};

pub mod table;

pub use table::{PLACES, TABLE};
use table::{A_SYMBOL, CLOSES, COLON, FOREIGN, NOTHING, OPENS, POINT, QUOTE, SEMICOLON, WHITE};

// The kinds of tokens. Bad is what is no token of the standard here; a reserved word is a symbol.
#[derive(Clone, Copy, Debug, PartialEq, Eq)]
pub enum Kind {
    End,
    Open,
    Close,
    Numeral,
    Symbol,
    Other,
    Bad,
}

// A token: its kind, where it begins, and the place past its last byte.
#[derive(Clone, Copy, Debug, PartialEq, Eq)]
pub struct Tok {
    pub kind: Kind,
    pub from: usize,
    pub to: usize,
}

// A larger numeral is past every bound: numbers are read as this one from there on.
const CAP: u64 = 10_000_000;

// The class of the byte.
fn class_of(tab: &[u8; PLACES], b: u8) -> u8
    requires { tab.now ≡ LEXICON }
    ensures { result ≡ class b }
{
    tab[b as usize]
}

// What a piece is with one byte more.
fn grow(tab: &[u8; PLACES], p: u8, k: u8) -> u8
    requires tab_value { tab.now ≡ LEXICON }
    requires p_bound { p < 16 }
    requires k_bound { k < 16 }
    ensures { (result ≡ grown p k) × (result < 16) }
{
    // A symbol that goes on with a letter stays one: the common case, told without waiting for the table.
    if COLON < k && p == A_SYMBOL {
        return A_SYMBOL;
    }
    tab[256 + 16 * (p as usize) + (k as usize)]
}

// The kind that the lexicon gives this number.
fn kind_numbered(n: u8) -> Kind
    requires { n ≤ 6 }
    ensures { code_of result ≡ n }
{
    match n {
        0 => Kind::End,
        1 => Kind::Open,
        2 => Kind::Close,
        3 => Kind::Numeral,
        4 => Kind::Symbol,
        5 => Kind::Other,
        _ => Kind::Bad,
    }
}

// The kind of a whole piece.
fn kind_of(tab: &[u8; PLACES], p: u8) -> Kind
    requires tab_value { tab.now ≡ LEXICON }
    requires p_bound { p < 16 }
    ensures { code_of result ≡ kind p }
{
    kind_numbered(tab[512 + (p as usize)])
}

// Whether the byte ends a comment.
fn ends_line(b: u8) -> bool
    ensures { result ≡ line_end b }
{
    b == 10 || b == 13
}

// How many bytes of a comment stand before a line feed, a carriage return or the end of the text.
fn comment_length(rest: &[u8]) -> usize
    ensures { result ≡ position_or_len line_end rest.now }
{
    rest.iter()
        .position(|&b| ends_line(b))
        .unwrap_or(rest.len())
}

// Where the comment ends that begins at place at: at a line feed, a carriage return or the end of the text.
fn comment_end(s: &[u8], at: usize) -> usize
    requires at_in_bounds { at < length s.now }
    requires at_value { get_or s.now at 0 ≡ 59 }
    ensures { (at < result) × (start s.now result ≡ start s.now at) }
{
    at + comment_length(&s[at..])
}

// The piece that stands at place f, where first is the class of its first byte.
fn piece(s: &[u8], tab: &[u8; PLACES], f: usize, first: u8) -> Tok
    requires tab_value { tab.now ≡ LEXICON }
    requires f_in_bounds { f < length s.now }
    requires first_value { first ≡ class (get_or s.now f 0) }
    requires lt_first { 4 < first }
    ensures { numbered result ≡ piece_at s.now f }
{
    let mut p = grow(tab, NOTHING, first);
    for i in f + 1..s.len() {
        let k = class_of(tab, s[i]);
        if k <= QUOTE {
            return Tok {
                kind: kind_of(tab, p),
                from: f,
                to: i,
            };
        }
        p = grow(tab, p, k);
    }
    Tok {
        kind: kind_of(tab, p),
        from: f,
        to: s.len(),
    }
}

// Where the piece ends that is a symbol up to place from; None where it may be no symbol, since a byte from there on is none of a symbol.
fn symbol_end(s: &[u8], tab: &[u8; PLACES], from: usize) -> Option<usize>
    requires tab_value { tab.now ≡ LEXICON }
    requires from_in_bounds { from ≤ length s.now }
    ensures { IfSome result (λ to. (whole SYMBOLIC (drop from s.now) ≡ SYMBOLIC) × (to ≡ from + extent (drop from s.now))) }
{
    for i in from..s.len() {
        let k = class_of(tab, s[i]);
        if k <= COLON {
            if k <= QUOTE {
                return Some(i);
            }
            if k == FOREIGN || POINT < k {
                return None;
            }
        }
    }
    Some(s.len())
}

// The first token from place at on, where it is likely to be a symbol: its bytes are told by their classes alone.
pub fn symbol(s: &[u8], tab: &[u8; PLACES], at: usize) -> Tok
    requires { tab.now ≡ LEXICON }
    ensures { numbered result ≡ token_at s.now at }
{
    for f in at..s.len() {
        let k = class_of(tab, s[f]);
        if k == WHITE {
            continue;
        }
        if k == POINT || COLON < k {
            if let Some(to) = symbol_end(s, tab, f + 1) {
                return Tok {
                    kind: Kind::Symbol,
                    from: f,
                    to,
                };
            }
        }
        return token(s, tab, f);
    }
    token(s, tab, at)
}

// The first token from place at on; of kind End at the end of the text.
pub fn token(s: &[u8], tab: &[u8; PLACES], at: usize) -> Tok
    requires { tab.now ≡ LEXICON }
    ensures { numbered result ≡ token_at s.now at }
{
    let mut i = at;
    // The place goes on by a byte or by a whole comment, which no range says more plainly.
    while i < s.len() {
        let k = class_of(tab, s[i]);
        let kind = match k {
            WHITE => {
                i += 1;
                continue;
            }
            OPENS => Kind::Open,
            CLOSES => Kind::Close,
            SEMICOLON => {
                i = comment_end(s, i);
                continue;
            }
            QUOTE => Kind::Bad,
            _ => return piece(s, tab, i, k),
        };
        return Tok {
            kind,
            from: i,
            to: i + 1,
        };
    }
    Tok {
        kind: Kind::End,
        from: i,
        to: i,
    }
}

// The value of a digit; 0 for a byte below the digits.
fn digit_of(b: u8) -> u64
    ensures { result ≡ b - 48 }
{
    b.saturating_sub(48) as u64
}

// The number that the digits say, cut at the cap.
pub fn value(digits: &[u8]) -> u64
    ensures { result ≡ cut (number 0 digits.now) }
{
    let mut n = 0;
    for &b in digits {
        n = CAP.min(10 * n + digit_of(b));
    }
    n
}
