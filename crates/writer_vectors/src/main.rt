// Writes lent book records back as text, sound and damaged ones. The record begins empty. A line of standard input begins with a letter:
// `B`, the length of a text in eight hex digits, a newline, the text and a newline: it becomes the book; `X`, a column's letter, an index
// in two digits and a value in eight: sets an entry; `W` and a room in eight digits, filled with `*`: asks for the text. That gives a
// line, `text`, its length and how many bytes of the room behind it are still `*`, and then the text; or `no`, the refusal and how many
// bytes of the room are.
#![tactic(auto)]

mod answer;

use answer::print_answer;
use numerals::identifier_or_0;
use record::BOOK_WORDS;
use record_cases::set_entry;
use std::io::Read;
use streams::{read_first, read_full};

const MOST_LINES: u32 = 1000000;

// The longest text with its newline, and the largest room.
const ROOM: usize = 8192;

// What a room is filled with before.
const FILLING: u8 = 42;

// Eight digits and the end of their line.
fn read_size<R: Read>(input: &mut R) -> usize {
    let mut line = [0u8; 9];
    read_full(input, &mut line);
    identifier_or_0(&line[0..8]) as usize
}

fn read_book<R: Read>(input: &mut R, book: &mut [u32; BOOK_WORDS]) {
    let mut text = [0u8; ROOM];
    let size = read_size(input);
    if size < ROOM {
        read_first(input, &mut text, size + 1);
        let _ = book::read(&text[..size], book);
    }
}

fn ask<R: Read>(rt: &impl Print, input: &mut R, book: &[u32; BOOK_WORDS]) {
    let size = read_size(input);
    let mut room = [FILLING; ROOM];
    if size <= ROOM {
        print_answer(rt, book, &mut room[..size]);
    }
}

fn main(rt: HostRuntime) {
    let mut input = rt.stdin();
    let mut book = [0u32; BOOK_WORDS];
    let mut letter = [0u8; 1];
    for _ in 0..MOST_LINES {
        if read_full(&mut input, &mut letter) < 1 {
            return;
        }
        if letter[0] == b'B' {
            read_book(&mut input, &mut book);
        } else if letter[0] == b'X' {
            set_entry(&mut input, &mut book);
        } else {
            ask(&rt, &mut input, &book);
        }
    }
}
