// Frame lines from standard input, through one buffer.
ghost use Rattle.std.specs.Prelude.{◌≡◌, ◌+◌, ◌-◌, ◌≤◌, length, take, drop};
ghost use Rattle.lister.specs.Whole.{WholeUsed};

use listing::list;
use parts::{NEWLINE, find, part_before, part_from};
use record::BOOK_WORDS;
use signal_lines::{Figures, ILL_FORMED_LINE};
use std::io::Read;
use streams::{print_bytes, write_first};

// Where the listing stands, while there is more to read.
#[derive(Clone, Copy, PartialEq, Eq)]
pub enum Held {
    // The buffer begins with so many bytes of an unfinished line.
    Part(usize),
    // A line too long for the buffer is passed over.
    TooLong,
}

// The line of an ill-formed line.
fn send_ill_formed(rt: &impl Print) {
    print_bytes(rt, &ILL_FORMED_LINE);
}

// Reads once, to after the first `held` bytes. 0: the input has ended.
fn read_more<R: Read>(from: &mut R, input: &mut [u8], held: usize) -> usize
    requires { held ≤ length input.old }
    ensures { held + result ≤ length input.new }
{
    from.read(&mut input[held..]).unwrap_or(0)
}

// Lists every whole line of a text, and answers how many bytes they are.
fn list_whole(
    rt: &impl Print,
    book: &[u32; BOOK_WORDS],
    text: &[u8],
    out: &mut [u8],
    figures: Figures,
) -> usize
    ensures { WholeUsed book.now text.now out.old result }
{
    let mut used: usize = 0;
    while used < text.len() {
        let rest = part_from(text, used);
        let Ok(listed) = list(book, rest, &mut *out, figures) else {
            return used;
        };
        let _ = write_first(rt, &*out, listed.written);
        if listed.used == 0 {
            return used;
        }
        used += listed.used;
    }
    used
}

// Moves the bytes from `from` to before `size` to the front, and answers how many they are.
fn keep(input: &mut [u8], from: usize, size: usize) -> usize
    requires { (from ≤ size) × (size ≤ length input.old) }
    ensures { (result ≡ size - from) × (take result input.new ≡ take (size - from) (drop from input.old)) }
{
    input.copy_within(from..size, 0);
    size - from
}

// Lists what stands in the buffer from `from` to before `size`. A line that fills the buffer is too long: it is ill formed.
fn list_buffer(
    rt: &impl Print,
    book: &[u32; BOOK_WORDS],
    input: &mut [u8],
    out: &mut [u8],
    from: usize,
    size: usize,
    figures: Figures,
) -> Held
    requires { (from ≤ size) × (size ≤ length input.old) }
{
    let used = list_whole(rt, book, &input[from..size], &mut *out, figures);
    let begin = from + used;
    let left = keep(&mut *input, begin, size);
    if left < input.len() {
        return Held::Part(left);
    }
    send_ill_formed(rt);
    Held::TooLong
}

// Reads once, and lists what came; nothing is held once the input has ended. A last line without a newline is ill formed.
pub fn read_and_list<R: Read>(
    rt: &impl Print,
    from: &mut R,
    book: &[u32; BOOK_WORDS],
    input: &mut [u8],
    out: &mut [u8],
    held: Held,
    figures: Figures,
) -> Option<Held> {
    let before = match held {
        Held::Part(size) => size,
        Held::TooLong => 0,
    };
    if before > input.len() {
        return None;
    }
    let got = read_more(from, &mut *input, before);
    if got == 0 {
        if before > 0 {
            send_ill_formed(rt);
        }
        return None;
    }
    let size = before + got;
    let mut begin = 0;
    if held == Held::TooLong {
        let end = find(part_before(&*input, size), NEWLINE);
        if end >= size {
            return Some(Held::TooLong);
        }
        begin = end + 1;
    }
    Some(list_buffer(rt, book, &mut *input, &mut *out, begin, size, figures))
}
