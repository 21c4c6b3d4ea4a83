// Runs the cases of reading and packing on standard input, and prints what came out: the work of the programs `frames_vectors` and
// `packing_vectors`. A case begins with a letter: `B` and the length and bytes of a text that becomes the book; `F`, identifier, room and
// a frame to read; `P`, identifier, the lent frame's length and values to pack. Numbers are hex digits of a fixed count.
#![tactic(auto)]

mod numbers;
mod packing;
mod unpacking;

use numbers::{end_line, read_eight_digits};
use packing::pack_case;
use record::BOOK_WORDS;
use std::io::Read;
use streams::{read_first, read_full};
use unpacking::read_case;

const MOST_CASES: u32 = 1000000;

// The longest text of a book.
const TEXT: usize = 8192;

fn book_case<R: Read>(input: &mut R, text: &mut [u8], book: &mut [u32; BOOK_WORDS]) {
    let size = read_eight_digits(input) as usize;
    end_line(input);
    read_first(input, &mut *text, size);
    end_line(input);
    if let Some(first) = text.get(..size) {
        let _ = book::read(first, book);
    }
}

pub fn run<R: Input + Print>(rt: &R) {
    let mut input = rt.reader();
    let mut book = [0u32; BOOK_WORDS];
    let mut text = [0u8; TEXT];
    let mut letter = [0u8; 1];
    for _ in 0..MOST_CASES {
        if read_full(&mut input, &mut letter) < 1 {
            return;
        }
        match letter[0] {
            b'B' => book_case(&mut input, &mut text, &mut book),
            b'F' => read_case(rt, &mut input, &book),
            b'P' => pack_case(rt, &mut input, &book),
            _ => return,
        }
    }
}
