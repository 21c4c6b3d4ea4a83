// Values to pack: identifier, the lent frame's length, count of values, the values.
use crate::numbers::{
    end_line, print, print_four, print_refusal, read_eight_digits, read_two_digits,
};
use record::BOOK_WORDS;
use std::io::Read;

// The most bytes and the most values of a case.
const MOST_BYTES: usize = 16;

const MOST_VALUES: usize = 64;

fn print_frame(rt: &impl Print, frame: &[u8]) {
    if frame.len() == 8 {
        print(rt, b"packed\t");
        print_four(rt, [frame[0], frame[1], frame[2], frame[3]]);
        print_four(rt, [frame[4], frame[5], frame[6], frame[7]]);
        print(rt, b"\n");
    }
}

fn pack_into(
    rt: &impl Print,
    book: &[u32; BOOK_WORDS],
    identifier: u32,
    values: &[u32],
    frame: &mut [u8],
) {
    match frames::pack(book, identifier, values, &mut *frame) {
        Ok(()) => print_frame(rt, &*frame),
        Err(why) => print_refusal(rt, u32::from(why)),
    }
}

// The first `count` values are read and given, and the first `size` bytes lent.
pub fn pack_case<R: Read>(rt: &impl Print, input: &mut R, book: &[u32; BOOK_WORDS]) {
    let identifier = read_eight_digits(input);
    let size = read_two_digits(input) as usize;
    let count = read_two_digits(input) as usize;
    let mut values = [0u32; MOST_VALUES];
    let mut frame = [0u8; MOST_BYTES];
    if count <= MOST_VALUES {
        for value in values[..count].iter_mut() {
            *value = read_eight_digits(input);
        }
        if size <= MOST_BYTES {
            pack_into(rt, book, identifier, &values[..count], &mut frame[..size]);
        }
    }
    end_line(input);
}
