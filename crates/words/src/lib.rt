// Which words are reserved, and which are operators.
#![tactic(auto)]

ghost use Rattle.std.specs.Prelude.{◌≡◌, map};
ghost use Rattle.words.specs.Words.{among, reserved, compares, operates};

// The reserved words of SMT-LIB 2.6, general ones and command names, by their length: a word is compared with those of its own length alone, or nearly so.
// Those of up to 3 bytes.
static WORDS_TO_3: [&[u8]; 6] = [b"!", b"_", b"as", b"let", b"par", b"pop"];

// Those of 4 or 5 bytes.
static WORDS_TO_5: [&[u8]; 5] = [b"echo", b"exit", b"push", b"match", b"reset"];

// Those of 6 bytes.
static WORDS_OF_6: [&[u8]; 5] = [b"assert", b"exists", b"forall", b"BINARY", b"STRING"];

// Those of 7 to 9 bytes.
static WORDS_TO_9: [&[u8]; 9] = [
    b"DECIMAL",
    b"NUMERAL",
    b"get-info",
    b"set-info",
    b"check-sat",
    b"get-model",
    b"get-proof",
    b"get-value",
    b"set-logic",
];

// Those of 10 to 13 bytes.
static WORDS_TO_13: [&[u8]; 8] = [
    b"define-fun",
    b"get-option",
    b"set-option",
    b"HEXADECIMAL",
    b"declare-fun",
    b"define-sort",
    b"declare-sort",
    b"declare-const",
];

// Those of 14 bytes or more.
static WORDS_FROM_14: [&[u8]; 10] = [
    b"define-fun-rec",
    b"get-unsat-core",
    b"get-assignment",
    b"get-assertions",
    b"define-funs-rec",
    b"declare-datatype",
    b"reset-assertions",
    b"declare-datatypes",
    b"check-sat-assuming",
    b"get-unsat-assumptions",
];

// The operators of atoms.
static COMPARISONS: [&[u8]; 4] = [b"<=", b"<", b">=", b">"];

// The operators that take terms.
static CONNECTIVES: [&[u8]; 2] = [b"not", b"and"];

// Whether the word is one of the words.
fn is_one_of(word: &[u8], words: &[&[u8]]) -> bool
    ensures { result ≡ among word.now (map (λ w. w.now) words.now) }
{
    words.iter().any(|w| word == *w)
}

// Whether the word is reserved.
pub fn is_reserved(word: &[u8]) -> bool
    ensures { result ≡ reserved word.now }
{
    match word.len() {
        0..=3 => is_one_of(word, &WORDS_TO_3),
        4..=5 => is_one_of(word, &WORDS_TO_5),
        6 => is_one_of(word, &WORDS_OF_6),
        7..=9 => is_one_of(word, &WORDS_TO_9),
        10..=13 => is_one_of(word, &WORDS_TO_13),
        _ => is_one_of(word, &WORDS_FROM_14),
    }
}

// Whether the word is the operator of an atom.
pub fn is_comparison(word: &[u8]) -> bool
    ensures { result ≡ compares word.now }
{
    is_one_of(word, &COMPARISONS)
}

// Whether the word is an operator that takes terms or numbers.
pub fn is_operator(word: &[u8]) -> bool
    ensures { result ≡ operates word.now }
{
    is_one_of(word, &CONNECTIVES) || is_comparison(word)
}
