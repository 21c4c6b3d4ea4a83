// Standard input and standard output, for the programs of this repository. A read that fails ends the input, and of a print that
// fails nothing is said, but by `write_first`. A front that is longer than its buffer is left alone.
#![tactic(auto)]

ghost use Rattle.std.specs.Prelude.{◌≤◌, length, take};
ghost use Rattle.std.specs.Io.KnownBytes.{Consumes};
ghost use Rattle.printing.specs.Put.{Put};
ghost use Rattle.streams.specs.Refusal.{refusal_line, refusal_room};

use printing::{put_byte, put_bytes, put_natural, put_signed};
use std::io;
use std::io::{ErrorKind, Read};

// No number with its sign is longer, and no line of a refusal.
const ROOM: usize = 32;

// Fills the buffer, as far as the input goes, and answers how many bytes it put there.
pub fn read_full<R: Read>(input: &mut R, buffer: &mut [u8]) -> usize
    ensures within { result ≤ length buffer.new }
    ensures bytes { Consumes (R.remaining input.old) (R.remaining input.new) (take result buffer.new) }
{
    let mut done: usize = 0;
    while done < buffer.len() {
        match input.read(&mut buffer[done..]) {
            Ok(0) => return done,
            Ok(more) => done += more,
            Err(_) => return done,
        }
    }
    done
}

// Fills the first `size` bytes, as far as the input goes.
pub fn read_first<R: Read>(input: &mut R, buffer: &mut [u8], size: usize) {
    if let Some(front) = buffer.get_mut(..size) {
        read_full(input, front);
    }
}

// Writes the first `size` bytes. An answer without an error says that all of them were taken.
pub fn write_first(rt: &impl Print, buffer: &[u8], size: usize) -> io::Result<()> {
    let Some(front) = buffer.get(..size) else {
        return Err(io::Error::from(ErrorKind::InvalidInput));
    };
    rt.write_all(front)
}

pub fn print_bytes(rt: &impl Print, bytes: &[u8]) {
    let _ = rt.write_all(bytes);
}

// The number in decimal digits.
pub fn print_decimal(rt: &impl Print, number: u64) {
    let _ = rt.print(number);
}

// The number in decimal digits, a minus before one below zero, by one write.
pub fn print_signed(rt: &impl Print, number: i64) {
    let mut text = [0u8; ROOM];
    let size = put_signed(&mut text, 0, number);
    let _ = write_first(rt, &text, size);
}

fn put_refusal(out: &mut [u8], number: u32) -> usize
    requires { refusal_room ≤ length out.old }
    ensures { Put out.old 0 (refusal_line number) out.new result }
{
    let word = put_bytes(&mut *out, 0, b"no\t");
    let digits = put_natural(&mut *out, word, u64::from(number));
    put_byte(&mut *out, digits, b'\n')
}

// The line of a refusal: `no` and its number, by one write.
pub fn print_refusal(rt: &impl Print, number: u32) {
    let mut text = [0u8; ROOM];
    let size = put_refusal(&mut text, number);
    let _ = write_first(rt, &text, size);
}
