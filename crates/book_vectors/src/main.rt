// Checks the route books on standard input, one after the other. Each is its length in eight hex digits and a newline, its bytes,
// and a newline. Each gives the book checker's line.
#![tactic(auto)]

use book_streams::send_answer;
use numerals::identifier_or_0;
use parts::part_before;
use streams::{read_first, read_full};

const MOST_BOOKS: u32 = 1000000;

// Room for the longest text, some bytes over the limit, and its newline.
const ROOM: usize = 32801;

// The length that a book's first line says; none for a line that is too short.
fn size_in(head: &[u8]) -> usize {
    if head.len() < 8 {
        return ROOM;
    }
    identifier_or_0(part_before(head, 8)) as usize
}

fn check(rt: &impl Print, text: &[u8]) {
    let mut words = [0u32; record::BOOK_WORDS];
    let _ = send_answer(rt, book::read(text, &mut words));
}

fn main(rt: HostRuntime) {
    let mut input = rt.stdin();
    let mut head = [0u8; 9];
    let mut text = [0u8; ROOM];
    for _ in 0..MOST_BOOKS {
        if read_full(&mut input, &mut head) < 9 {
            return;
        }
        let size = size_in(&head);
        if size >= ROOM {
            return;
        }
        read_first(&mut input, &mut text, size + 1);
        check(&rt, &text[..size]);
    }
}
