// Numbers of a case: hex digits of a fixed count, read from standard input; and how numbers are printed.
use numerals::identifier_or_0;
use record_cases::short_hex;
use std::io::Read;
pub use streams::print_signed;
use streams::{print_bytes, print_decimal, read_full};

pub fn read_eight_digits<R: Read>(input: &mut R) -> u32 {
    let mut digits = [0u8; 8];
    read_full(input, &mut digits);
    identifier_or_0(&digits)
}

// At most 255.
pub fn read_two_digits<R: Read>(input: &mut R) -> u32 {
    let mut digits = [0u8; 2];
    read_full(input, &mut digits);
    short_hex(digits[0], digits[1])
}

pub fn read_byte<R: Read>(input: &mut R) -> u8 {
    (read_two_digits(input) % 256) as u8
}

// A line ends here.
pub fn end_line<R: Read>(input: &mut R) {
    let mut byte = [0u8; 1];
    read_full(input, &mut byte);
}

pub fn print(rt: &impl Print, text: &[u8]) {
    print_bytes(rt, text);
}

pub fn print_number(rt: &impl Print, n: u32) {
    print_decimal(rt, u64::from(n));
}

// Four bytes as eight digits, the highest first.
pub fn print_four(rt: &impl Print, bytes: [u8; 4]) {
    let mut text = [0u8; 8];
    writing::put_identifier(&mut text, 0, u32::from_be_bytes(bytes));
    print(rt, &text);
}

pub fn print_refusal(rt: &impl Print, number: u32) {
    print(rt, b"no\t");
    print_number(rt, number);
    print(rt, b"\n");
}
