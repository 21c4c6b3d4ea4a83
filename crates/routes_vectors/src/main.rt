// Judges the tables of routes on standard input, and spreads one place by each that is sound. A line is how many routes,
// in two hex digits, for each its from and to place in eight each, and the place to spread. Each gives a line: `loop` or
// `doubling` with the route's index, or `sound` with the count of the spread and its places.
#![tactic(auto)]

use numerals::identifier_or_0;
use record::{BOOK_WORDS, FROMS, IDENTIFIER_LIMIT, ROUTE_COUNT, ROUTES, TOS};
use record_cases::short_hex;
use streams::{print_bytes, print_decimal, read_first, read_full};
use verdict::Verdict;

const MOST_LINES: u32 = 1000000;

// The longest line after its count: 64 routes, a place and the newline.
const LINE: usize = 1033;

// The book that has the routes of the line, and nothing else.
fn book_on(line: [u8; LINE], n: usize) -> [u32; BOOK_WORDS] {
    let mut book = [0u32; BOOK_WORDS];
    if n > ROUTES {
        return book;
    }
    book[ROUTE_COUNT] = n as u32;
    for i in 0..n {
        let from = 16 * i;
        let to = from + 8;
        let end = from + 16;
        book[FROMS + i] = identifier_or_0(&line[from..to]);
        book[TOS + i] = identifier_or_0(&line[to..end]);
    }
    book
}

fn place_on(line: [u8; LINE], n: usize) -> u32 {
    if n > ROUTES {
        return 0;
    }
    let at = 16 * n;
    let end = at + 8;
    identifier_or_0(&line[at..end])
}

fn print_index(rt: &impl Print, word: &[u8], i: usize) {
    print_bytes(rt, word);
    print_decimal(rt, i as u64);
    print_bytes(rt, b"\n");
}

fn print_spread(rt: &impl Print, book: &[u32; BOOK_WORDS], place: u32) {
    let bus = place / IDENTIFIER_LIMIT;
    let identifier = place % IDENTIFIER_LIMIT;
    route_cases::print_spread(rt, b"sound\t", book, bus, identifier, ROUTES);
}

fn judge_first(froms: &[u32], tos: &[u32], n: usize) -> Verdict {
    if n > ROUTES {
        return Verdict::Sound;
    }
    if n > froms.len() {
        return Verdict::Sound;
    }
    if n > tos.len() {
        return Verdict::Sound;
    }
    gateway_checker::judge(&froms[..n], &tos[..n])
}

fn answer(rt: &impl Print, book: &[u32; BOOK_WORDS], n: usize, place: u32) {
    match judge_first(record::froms(book), record::tos(book), n) {
        Verdict::Loop(i) => print_index(rt, b"loop\t", i),
        Verdict::Doubling(i) => print_index(rt, b"doubling\t", i),
        Verdict::Sound => print_spread(rt, book, place),
    }
}

fn main(rt: HostRuntime) {
    let mut input = rt.stdin();
    let mut head = [0u8; 2];
    let mut line = [0u8; LINE];
    for _ in 0..MOST_LINES {
        if read_full(&mut input, &mut head) < 2 {
            return;
        }
        let n = short_hex(head[0], head[1]) as usize;
        if n > ROUTES {
            return;
        }
        read_first(&mut input, &mut line, 16 * n + 9);
        let book = book_on(line, n);
        answer(&rt, &book, n, place_on(line, n));
    }
}
