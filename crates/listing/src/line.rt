// One frame line, printed where its printout fits what is left of the room.
ghost use Rattle.std.specs.Prelude.{◌≤◌, length};
ghost use Rattle.books.specs.Words.{messages_of};
ghost use Rattle.listing.specs.Printout.{printout};
ghost use Rattle.listing.specs.Working.{word_listing, PutIfFits};

use crate::message::list_message;
use crate::room::{list_ill_formed, list_refused};
use columns::part;
use frame_lines::{FrameLine, read_frame_line};
use frames::{TestedBook, find_message};
use signal_lines::Figures;

const NOT_EIGHT_BYTES: u32 = 21;

const UNKNOWN_IDENTIFIER: u32 = 22;

// A frame of 8 bytes, given as its word.
fn list_frame(
    book: &TestedBook,
    identifier: u32,
    word: u64,
    out: &mut [u8],
    at: usize,
    figures: Figures,
) -> Option<usize>
    requires { at ≤ length out.old }
    ensures { PutIfFits out.old at (word_listing figures book.now.words.now identifier word) out.new result }
{
    let Some((from, to)) = find_message(book, identifier) else {
        return list_refused(&mut *out, at, identifier, UNKNOWN_IDENTIFIER);
    };
    let numbers = part(record::numbers(book.words), from, to);
    let starts = part(record::starts(book.words), from, to);
    list_message(&mut *out, at, identifier, word, numbers, starts, figures)
}

// What a frame line, without its newline, prints.
pub fn list_line(
    book: &TestedBook,
    line: &[u8],
    out: &mut [u8],
    at: usize,
    figures: Figures,
) -> Option<usize>
    requires { at ≤ length out.old }
    ensures { PutIfFits out.old at (printout figures (messages_of book.now.words.now) line.now) out.new result }
{
    match read_frame_line(line) {
        FrameLine::Frame(identifier, word) => list_frame(
            book, identifier, word, &mut *out, at, figures,
        ),
        FrameLine::NotEightBytes(identifier) => list_refused(
            &mut *out,
            at,
            identifier,
            NOT_EIGHT_BYTES,
        ),
        FrameLine::IllFormed => list_ill_formed(&mut *out, at),
    }
}
