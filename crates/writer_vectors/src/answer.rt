// What a call for the text gives, printed.
use crate::FILLING;
use record::BOOK_WORDS;
use streams::{print_bytes, print_decimal, write_first};

// How many of these bytes are as they were.
fn stayed(room: &[u8]) -> usize {
    let mut count = 0;
    for byte in room {
        count += usize::from(*byte == FILLING);
    }
    count
}

fn print_line(rt: &impl Print, word: &[u8], number: usize, bytes: usize) {
    print_bytes(rt, word);
    print_decimal(rt, number as u64);
    print_bytes(rt, b"\t");
    print_decimal(rt, bytes as u64);
    print_bytes(rt, b"\n");
}

fn print_text(rt: &impl Print, room: &[u8], size: usize) {
    let behind = room.get(size..).map_or(0, stayed);
    print_line(rt, b"text\t", size, behind);
    let _ = write_first(rt, room, size);
}

fn print_refusal(rt: &impl Print, room: &[u8], number: u32) {
    print_line(rt, b"no\t", number as usize, stayed(room));
}

// The room is as it is lent.
pub fn print_answer(rt: &impl Print, book: &[u32; BOOK_WORDS], room: &mut [u8]) {
    match book_writer::write(book, &mut *room) {
        Ok(n) => print_text(rt, &*room, n as usize),
        Err(why) => print_refusal(rt, &*room, u32::from(why)),
    }
}
