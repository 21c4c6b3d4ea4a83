// Prints every row of the catalogue, and the class of the counts at its edges: 0, the limits and one beyond each, the ends
// of every mark and one beyond each, all ones, and one too wide. Then the answer for numbers that no signal has.
#![tactic(auto)]

use catalogue::{Class, Raw};
use rows::{Mark, MarkKind, Row};
use streams::{print_bytes, print_decimal, print_refusal};

const ROWS: usize = 199;

fn print(rt: &impl Print, n: u32) {
    print_bytes(rt, b"\t");
    print_decimal(rt, u64::from(n));
}

fn print_signed(rt: &impl Print, n: i64) {
    print_bytes(rt, b"\t");
    streams::print_signed(rt, n);
}

fn print_word(rt: &impl Print, word: &[u8]) {
    print_bytes(rt, word);
}

fn print_kind(rt: &impl Print, kind: MarkKind) {
    match kind {
        MarkKind::Unmarked => (),
        MarkKind::Invalid => print_word(rt, b"\tinvalid"),
        MarkKind::Absent => print_word(rt, b"\tabsent"),
        MarkKind::Error => print_word(rt, b"\terror"),
        MarkKind::Reserved => print_word(rt, b"\treserved"),
    }
}

fn print_mark(rt: &impl Print, mark: Mark) {
    if mark.kind != MarkKind::Unmarked {
        print_kind(rt, mark.kind);
        print(rt, mark.first);
        print(rt, mark.last);
    }
}

fn print_row(rt: &impl Print, row: Row) {
    print_bytes(rt, b"row");
    print(rt, row.number);
    print(rt, row.bits);
    print(rt, u32::from(row.resolution));
    print_signed(rt, i64::from(row.offset));
    print(rt, row.lowest);
    print(rt, row.highest);
    print_mark(rt, row.mark1);
    print_mark(rt, row.mark2);
    print_mark(rt, row.mark3);
    print_bytes(rt, b"\n");
}

fn print_count(rt: &impl Print, word: &[u8], raw: Raw) {
    print_bytes(rt, word);
    print(rt, raw.0);
}

fn print_class(rt: &impl Print, number: u32, count: u32) {
    print_decimal(rt, u64::from(number));
    print(rt, count);
    match catalogue::class_of(number, Raw(count)) {
        Ok(Class::Value(t)) => {
            print_bytes(rt, b"\tvalue");
            print_signed(rt, t.0);
        }
        Ok(Class::Invalid(raw)) => print_count(rt, b"\tinvalid", raw),
        Ok(Class::Absent(raw)) => print_count(rt, b"\tabsent", raw),
        Ok(Class::Error(raw)) => print_count(rt, b"\terror", raw),
        Ok(Class::Reserved(raw)) => print_count(rt, b"\treserved", raw),
        Ok(Class::Outside(raw)) => print_count(rt, b"\toutside", raw),
        Err(why) => {
            print_bytes(rt, b"\t");
            print_refusal(rt, u32::from(why));
            return;
        }
    }
    print_bytes(rt, b"\n");
}

// One below a count, if that is a count.
fn below(rt: &impl Print, number: u32, first: u32) {
    if first > 0 {
        print_class(rt, number, first - 1);
    }
}

// One below an interval, its first and last, and one above, as far as these are counts.
fn around(rt: &impl Print, number: u32, first: u32, last: u32) {
    below(rt, number, first);
    print_class(rt, number, first);
    print_class(rt, number, last);
    if last < u32::MAX {
        print_class(rt, number, last + 1);
    }
}

fn around_mark(rt: &impl Print, number: u32, mark: Mark) {
    if mark.kind != MarkKind::Unmarked {
        around(rt, number, mark.first, mark.last);
    }
}

// All ones, and one more.
fn at_width(rt: &impl Print, number: u32, bits: u32) {
    if bits < 32 {
        let codes = 1u32 << bits;
        below(rt, number, codes);
        print_class(rt, number, codes);
    } else {
        print_class(rt, number, u32::MAX);
    }
}

fn print_edges(rt: &impl Print, row: Row) {
    let number = row.number;
    print_class(rt, number, 0);
    around(rt, number, row.lowest, row.highest);
    around_mark(rt, number, row.mark1);
    around_mark(rt, number, row.mark2);
    around_mark(rt, number, row.mark3);
    at_width(rt, number, row.bits);
}

fn print_rows(rt: &impl Print) {
    for place in 0..ROWS {
        let row = rows::row_at(place);
        print_row(rt, row);
        print_edges(rt, row);
    }
}

// No signal has these numbers.
fn print_strangers(rt: &impl Print) {
    print_class(rt, 0, 0);
    print_class(rt, 1, 0);
    print_class(rt, 200, 0);
    print_class(rt, 299, 0);
    print_class(rt, 1400, 0);
    print_class(rt, 1401, 0);
    print_class(rt, 1928, 0);
    print_class(rt, 2001, 0);
    print_class(rt, 65535, 0);
    print_class(rt, 4294967295, 0);
}

fn main(rt: HostRuntime) {
    print_rows(&rt);
    print_strangers(&rt);
}
