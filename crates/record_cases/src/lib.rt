// What the programs on vectors share: an entry of a lent book record, sound or damaged, set by a line of standard input (`spread_vectors`,
// `writer_vectors`); and a number of two hex digits, for the programs on routes, frames and faults too.
#![tactic(auto)]

ghost use Rattle.std.specs.Prelude.{◌≡◌, [], ◌∷◌, ◌≤◌};
ghost use Rattle.numerals.specs.Numeral.{numeral_from, or_zero};
ghost use Rattle.record.specs.Columns.{book_words};

use numerals::identifier_or_0;
use record::{
    BOOK_WORDS, ENDS, FROMS, IDS, MESSAGE_COUNT, NUMBERS, ROUTE_COUNT, SIGNAL_COUNT, STARTS, TOS,
};
use std::io::Read;
use streams::read_full;

// The number that two digits 0-9 A-F write; 0 where they write none.
pub fn short_hex(high: u8, low: u8) -> u32
    ensures { result ≡ or_zero (numeral_from 16 0 (high ∷ low ∷ [])) }
{
    identifier_or_0(&[b'0', b'0', b'0', b'0', b'0', b'0', high, low])
}

// Where the column of a letter begins.
fn column(letter: u8) -> usize
    ensures { result ≤ book_words }
{
    match letter {
        b'M' => MESSAGE_COUNT,
        b'S' => SIGNAL_COUNT,
        b'R' => ROUTE_COUNT,
        b'I' => IDS,
        b'E' => ENDS,
        b'N' => NUMBERS,
        b'T' => STARTS,
        b'F' => FROMS,
        _ => TOS,
    }
}

// What is left of a line after its `X`: a column's letter, an index in two digits, a value in eight, and its newline. Sets that entry.
pub fn set_entry<R: Read>(input: &mut R, book: &mut [u32; BOOK_WORDS]) {
    let mut line = [0u8; 12];
    read_full(input, &mut line);
    let index = short_hex(line[1], line[2]) as usize;
    let value = identifier_or_0(&line[3..11]);
    let start = column(line[0]);
    if index < BOOK_WORDS - start {
        book[start + index] = value;
    }
}
