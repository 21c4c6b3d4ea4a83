// A frame to read: identifier, room, count of bytes, the bytes.
use crate::numbers::{
    end_line, print, print_number, print_refusal, print_signed, read_byte, read_eight_digits,
    read_two_digits,
};
use record::BOOK_WORDS;
use std::io::Read;

// The most bytes and the most room of a case.
const MOST_BYTES: usize = 16;

const MOST_ROOM: usize = 64;

fn print_word(rt: &impl Print, code: u8) {
    match code {
        0 => print(rt, b"value"),
        1 => print(rt, b"invalid"),
        2 => print(rt, b"absent"),
        3 => print(rt, b"error"),
        4 => print(rt, b"reserved"),
        _ => print(rt, b"outside"),
    }
}

fn print_reading(rt: &impl Print, raw: u32, code: u8, thousandths: i64) {
    print(rt, b"\t");
    print_number(rt, raw);
    print(rt, b"\t");
    print_word(rt, code);
    print(rt, b"\t");
    print_signed(rt, thousandths);
}

fn print_readings(rt: &impl Print, count: u32, raws: &[u32], classes: &[u8], thousandths: &[i64]) {
    print(rt, b"read\t");
    print_number(rt, count);
    for ((raw, code), reading) in raws
        .iter()
        .zip(classes)
        .zip(thousandths)
        .take(count as usize)
    {
        print_reading(rt, *raw, *code, *reading);
    }
    print(rt, b"\n");
}

fn read_by(
    rt: &impl Print,
    book: &[u32; BOOK_WORDS],
    identifier: u32,
    frame: &[u8],
    raws: &mut [u32],
    classes: &mut [u8],
    thousandths: &mut [i64],
) {
    match frames::read(
        book,
        identifier,
        frame,
        &mut *raws,
        &mut *classes,
        &mut *thousandths,
    ) {
        Ok(count) => print_readings(rt, count, &*raws, &*classes, &*thousandths),
        Err(why) => print_refusal(rt, u32::from(why)),
    }
}

// The first `count` bytes are read and lent, with the first `room` entries.
pub fn read_case<R: Read>(rt: &impl Print, input: &mut R, book: &[u32; BOOK_WORDS]) {
    let identifier = read_eight_digits(input);
    let room = read_two_digits(input) as usize;
    let count = read_two_digits(input) as usize;
    let mut frame = [0u8; MOST_BYTES];
    let mut raws = [0u32; MOST_ROOM];
    let mut classes = [0u8; MOST_ROOM];
    let mut thousandths = [0i64; MOST_ROOM];
    if count <= MOST_BYTES {
        for byte in frame[..count].iter_mut() {
            *byte = read_byte(input);
        }
        if room <= MOST_ROOM {
            read_by(
                rt,
                book,
                identifier,
                &frame[..count],
                &mut raws[..room],
                &mut classes[..room],
                &mut thousandths[..room],
            );
        }
    }
    end_line(input);
}
