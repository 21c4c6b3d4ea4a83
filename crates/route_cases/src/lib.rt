// What the programs `routes_vectors` and `spread_vectors` share: a call for a spread with what came of it printed: a word, the count and
// the places, or `no` and the refusal.
#![tactic(auto)]

use record::{BOOK_WORDS, ROUTES};
use streams::{print_bytes, print_decimal, print_refusal};

fn print_place(rt: &impl Print, place: u32) {
    let mut text = [b'\t', 0, 0, 0, 0, 0, 0, 0, 0];
    writing::put_identifier(&mut text, 1, place);
    print_bytes(rt, &text);
}

fn print_places(rt: &impl Print, word: &[u8], places: &[u32], n: usize) {
    print_bytes(rt, word);
    print_decimal(rt, n as u64);
    for place in places.iter().take(n) {
        print_place(rt, *place);
    }
    print_bytes(rt, b"\n");
}

fn print_answer(
    rt: &impl Print,
    word: &[u8],
    book: &[u32; BOOK_WORDS],
    bus: u32,
    identifier: u32,
    room: &mut [u32],
) {
    match routes::spread(book, bus, identifier, &mut *room) {
        Ok(n) => print_places(rt, word, &*room, n as usize),
        Err(why) => print_refusal(rt, u32::from(why)),
    }
}

// Asks for a spread with a room of `size` entries, at most as many as a book has routes.
pub fn print_spread(
    rt: &impl Print,
    word: &[u8],
    book: &[u32; BOOK_WORDS],
    bus: u32,
    identifier: u32,
    size: usize,
) {
    let mut room = [0u32; ROUTES];
    if size <= ROUTES {
        print_answer(rt, word, book, bus, identifier, &mut room[..size]);
    }
}
