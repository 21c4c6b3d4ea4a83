// Asks a lent book record for spreads, sound and damaged. The record begins empty. A line of standard input is `X`, a column's letter
// (`R` the count of routes, `F` the places they lead from, `G` those they lead to), an index in two hex digits and a value in eight,
// which sets an entry; or `S`, a bus and an identifier in eight digits each and a room in two, which asks for a spread and gives a line:
// `spread`, the count and the places, or `no` and the refusal.
#![tactic(auto)]

use numerals::identifier_or_0;
use record::BOOK_WORDS;
use record_cases::{set_entry, short_hex};
use std::io::Read;
use streams::read_full;

const MOST_LINES: u32 = 1000000;

fn ask<R: Read>(rt: &impl Print, input: &mut R, book: &[u32; BOOK_WORDS]) {
    let mut line = [0u8; 19];
    read_full(input, &mut line);
    let bus = identifier_or_0(&line[0..8]);
    let identifier = identifier_or_0(&line[8..16]);
    let size = short_hex(line[16], line[17]) as usize;
    route_cases::print_spread(rt, b"spread\t", book, bus, identifier, size);
}

fn main(rt: HostRuntime) {
    let mut input = rt.stdin();
    let mut book = [0u32; BOOK_WORDS];
    let mut letter = [0u8; 1];
    for _ in 0..MOST_LINES {
        if read_full(&mut input, &mut letter) < 1 {
            return;
        }
        if letter[0] == b'X' {
            set_entry(&mut input, &mut book);
        } else {
            ask(&rt, &mut input, &book);
        }
    }
}
