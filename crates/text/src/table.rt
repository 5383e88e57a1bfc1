// The lexicon as one table; specs/Table.antt has the same numbers, and proofs/Reading.antt proves that it says what the lexicon says.

// Classes and pieces stay numbers: each is a place in the table, which one load reads. The classes of bytes up to QUOTE end a piece.
pub const WHITE: u8 = 0;

pub const OPENS: u8 = 1;

pub const CLOSES: u8 = 2;

pub const SEMICOLON: u8 = 3;

pub const QUOTE: u8 = 4;

// No token has such a byte.
pub const FOREIGN: u8 = 5;

// Digits stand between FOREIGN and POINT, letters past COLON.
pub const POINT: u8 = 9;

pub const COLON: u8 = 11;

// A piece that has no byte yet, and one that is a symbol so far.
pub const NOTHING: u8 = 0;

pub const A_SYMBOL: u8 = 10;

// How many places the table of the lexicon has.
pub const PLACES: usize = 528;

// The table of the lexicon. A caller keeps it in a local and lends it: a constant is written anew at each use.
pub const TABLE: [u8; PLACES] = [
    5, 5, 5, 5, 5, 5, 5, 5, 5, 0, 0, 5, 5, 0, 5, 5, 5, 5, 5, 5, 5, 5, 5, 5, 5, 5, 5, 5, 5, 5, 5, 5,
    0, 15, 4, 10, 15, 15, 15, 5, 1, 2, 15, 15, 5, 15, 9, 15, 6, 7, 8, 8, 8, 8, 8, 8, 8, 8, 11, 3,
    15, 15, 15, 15, 15, 14, 14, 14, 14, 14, 14, 15, 15, 15, 15, 15, 15, 15, 15, 15, 15, 15, 15, 15,
    15, 15, 15, 15, 15, 15, 15, 5, 5, 5, 15, 15, 5, 14, 12, 14, 14, 14, 14, 15, 15, 15, 15, 15, 15,
    15, 15, 15, 15, 15, 15, 15, 15, 15, 15, 15, 13, 15, 15, 5, 4, 5, 15, 5, 5, 5, 5, 5, 5, 5, 5, 5,
    5, 5, 5, 5, 5, 5, 5, 5, 5, 5, 5, 5, 5, 5, 5, 5, 5, 5, 5, 5, 5, 5, 5, 5, 5, 5, 5, 5, 5, 5, 5, 5,
    5, 5, 5, 5, 5, 5, 5, 5, 5, 5, 5, 5, 5, 5, 5, 5, 5, 5, 5, 5, 5, 5, 5, 5, 5, 5, 5, 5, 5, 5, 5, 5,
    5, 5, 5, 5, 5, 5, 5, 5, 5, 5, 5, 5, 5, 5, 5, 5, 5, 5, 5, 5, 5, 5, 5, 5, 5, 5, 5, 5, 5, 5, 5, 5,
    5, 5, 5, 5, 5, 5, 5, 5, 5, 5, 5, 5, 5, 5, 5, 5, 5, 5, 5, 5, 5, 5, 5, 5, 13, 13, 13, 13, 13, 13,
    1, 2, 2, 10, 5, 11, 10, 10, 10, 10, 13, 13, 13, 13, 13, 13, 13, 13, 13, 3, 13, 13, 13, 13, 13,
    13, 13, 13, 13, 13, 13, 13, 2, 2, 2, 3, 13, 13, 13, 13, 13, 13, 13, 13, 13, 13, 13, 13, 4, 4,
    4, 13, 13, 13, 13, 13, 13, 13, 13, 13, 13, 13, 13, 13, 4, 4, 4, 13, 13, 13, 13, 13, 13, 13, 13,
    13, 13, 13, 13, 13, 13, 13, 13, 13, 13, 13, 8, 6, 13, 13, 13, 13, 13, 13, 13, 13, 7, 7, 7, 13,
    13, 13, 7, 13, 7, 13, 13, 13, 13, 13, 13, 13, 7, 7, 7, 13, 13, 13, 7, 13, 7, 13, 13, 13, 13,
    13, 13, 13, 9, 9, 13, 13, 13, 13, 13, 13, 13, 13, 13, 13, 13, 13, 13, 13, 9, 9, 13, 13, 13, 13,
    13, 13, 13, 13, 13, 13, 13, 13, 13, 13, 10, 10, 10, 10, 13, 13, 10, 10, 10, 10, 13, 13, 13, 13,
    13, 13, 13, 13, 13, 12, 13, 13, 12, 12, 12, 12, 13, 13, 13, 13, 13, 13, 12, 12, 12, 12, 13, 13,
    12, 12, 12, 12, 13, 13, 13, 13, 13, 13, 13, 13, 13, 13, 13, 13, 13, 13, 13, 13, 13, 13, 13, 13,
    13, 13, 13, 13, 13, 13, 13, 13, 13, 13, 13, 13, 13, 13, 13, 13, 13, 13, 13, 13, 13, 13, 13, 13,
    13, 13, 13, 13, 6, 3, 3, 6, 5, 6, 6, 5, 6, 5, 4, 6, 5, 6, 6, 6,
];
