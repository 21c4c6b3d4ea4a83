// What both listers do: the route book from the file book.txt, frame lines from standard input, their listing on standard output. A
// book that is refused gives the checker's line only. All that is printed comes from the library; here it is streamed: input of any
// length goes through one buffer, and what is left of it at a buffer's end comes before what is read next. The programs `frame_list` and
// `dash_list` differ in the figures that a value shows.
#![tactic(auto)]

mod input;

use book::read;
use book_streams::{ENOUGH, send_answer};
use input::{Held, read_and_list};
use record::BOOK_WORDS;
use signal_lines::Figures;
use std::fs;
use std::fs::Files;
use std::io::Read;
use streams::read_full;

const INPUT: usize = 65536;

const OUTPUT: usize = 262144;

// The book's text into a buffer; a file that can't be opened counts as empty text.
fn read_book<R: Files>(rt: &R, text: &mut [u8]) -> usize {
    match fs::open(rt, "book.txt") {
        Ok(mut file) => read_full(&mut file, text),
        Err(_) => 0,
    }
}

// A proved loop has to end, and nothing says that input does. So the loop counts its turns, up to a number that no run uses up.
fn list_input<R: Read>(
    rt: &impl Print,
    from: &mut R,
    book: &[u32; BOOK_WORDS],
    input: &mut [u8],
    out: &mut [u8],
    figures: Figures,
) {
    let mut held = Held::Part(0);
    for _ in 0..u64::MAX {
        let Some(next) = read_and_list(rt, from, book, &mut *input, &mut *out, held, figures) else {
            return;
        };
        held = next;
    }
}

// A whole run.
pub fn run<R: Files + Print, F: Read>(rt: &R, from: &mut F, figures: Figures) {
    let mut text = [0u8; ENOUGH];
    let size = read_book(rt, &mut text);
    if size > ENOUGH {
        return;
    }
    let mut words = [0u32; BOOK_WORDS];
    let answer = read(parts::part_before(&text, size), &mut words);
    if answer.is_ok() {
        let mut input = [0u8; INPUT];
        let mut out = [0u8; OUTPUT];
        list_input(rt, from, &words, &mut input, &mut out, figures);
        return;
    }
    let _ = send_answer(rt, answer);
}
