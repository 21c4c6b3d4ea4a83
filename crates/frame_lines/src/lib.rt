// One frame line: an identifier, a tab, and the bytes of a frame as pairs of digits, byte 0 first. `read_frame_line` answers for
// every slice and has no `requires`; `frame_of` is its room.
#![tactic(auto)]

ghost use Rattle.std.specs.Prelude.{◌≡◌};
ghost use Rattle.frame_lines.specs.Meaning.{said_by, frame_line_says};
ghost use Rattle.frame_lines.specs.Told.{told};

use fields::identifier_before;
use numerals::digit;
use parts::TAB;

const FRAME_DIGITS: usize = 16;

// The weight of a frame's last byte.
const BYTE_7: u64 = 72057594037927936;

// What a frame line says.
// Kept: a Result is no plainer: a frame of fewer bytes has an identifier to print, so it is an answer of its own beside the other two.
#[derive(Clone, Copy)]
pub enum FrameLine {
    // A frame of 8 bytes: its identifier, and the bytes as one number, byte 0 lowest.
    Frame(u32, u64),
    // A frame of fewer bytes: its identifier.
    NotEightBytes(u32),
    IllFormed,
}

// What digits after an identifier say. Each byte is put highest, and moves down as others follow.
fn frame_of(identifier: u32, digits: &[u8]) -> FrameLine
    ensures { result ≡ told (said_by (Some identifier) digits.now) }
{
    if digits.len() > FRAME_DIGITS {
        return FrameLine::IllFormed;
    }
    if digits.len() % 2 != 0 {
        return FrameLine::IllFormed;
    }
    let mut word: u64 = 0;
    for pair in digits.chunks_exact(2) {
        let high = digit(pair[0]);
        if high >= 16 {
            return FrameLine::IllFormed;
        }
        let low = digit(pair[1]);
        if low >= 16 {
            return FrameLine::IllFormed;
        }
        word = word / 256 + BYTE_7 * (16 * high + low);
    }
    if digits.len() < FRAME_DIGITS {
        return FrameLine::NotEightBytes(identifier);
    }
    FrameLine::Frame(identifier, word)
}

// What a frame line, without its newline, says.
#[tactic(auto, using(fields::proofs::Written::inside, crate::proofs::Cuts::one_tab, crate::proofs::Cuts::no_identifier))]
pub fn read_frame_line(line: &[u8]) -> FrameLine
    ensures { result ≡ told (frame_line_says line.now) }
{
    match identifier_before(line, TAB) {
        Some((identifier, k)) => frame_of(identifier, &line[k + 1..]),
        None => FrameLine::IllFormed,
    }
}
