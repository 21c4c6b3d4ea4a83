// A frame by its message, whose signals' numbers and starts stand in two slices, side by side.
ghost use Rattle.books.specs.Words.{side_by_side};
ghost use Rattle.listing.specs.Working.{word_lines, message_text, Roomy, Listable, SignalsPut, PutIfFits};

use crate::room::{fit, list_refused};
use messages::checked;
use signal_lines::{Figures, LISTED_LINE_ROOM, put_reading};

const WRONG_CHECKSUM: u32 = 23;

// As many of the longest lines as a message may have signals: 64.
const LONGEST: usize = 4096;

// A line for each signal, in the order of the S lines.
fn put_signals(
    out: &mut [u8],
    at: usize,
    identifier: u32,
    word: u64,
    numbers: &[u32],
    starts: &[u32],
    figures: Figures,
) -> usize
    requires { Roomy out.old at numbers.now starts.now }
    ensures { SignalsPut out.old at figures identifier word numbers.now starts.now out.new result }
{
    let mut next = at;
    for (i, number) in numbers.iter().enumerate() {
        let cut = catalogue::cut_of(*number, bits::window(word, starts[i]));
        next = put_reading(&mut *out, next, identifier, *number, cut.class, figures);
    }
    next
}

// The same where they fit: straight at their place where it has room for the longest lines, and otherwise written aside first.
fn list_signals(
    out: &mut [u8],
    at: usize,
    identifier: u32,
    word: u64,
    numbers: &[u32],
    starts: &[u32],
    figures: Figures,
) -> Option<usize>
    requires { Listable out.old at numbers.now starts.now }
    ensures { PutIfFits out.old at (word_lines figures identifier word (side_by_side numbers.now starts.now)) out.new result }
{
    if LISTED_LINE_ROOM * numbers.len() <= out.len() - at {
        return Some(put_signals(&mut *out, at, identifier, word, numbers, starts, figures));
    }
    let mut aside = [0u8; LONGEST];
    let length = put_signals(&mut aside, 0, identifier, word, numbers, starts, figures);
    fit(&mut *out, at, &aside[..length])
}

// The lines of the signals, or that the checksum is wrong.
pub fn list_message(
    out: &mut [u8],
    at: usize,
    identifier: u32,
    word: u64,
    numbers: &[u32],
    starts: &[u32],
    figures: Figures,
) -> Option<usize>
    requires { Listable out.old at numbers.now starts.now }
    ensures { PutIfFits out.old at (message_text figures identifier word numbers.now starts.now) out.new result }
{
    if checked(identifier, word, numbers) {
        return list_signals(&mut *out, at, identifier, word, numbers, starts, figures);
    }
    list_refused(&mut *out, at, identifier, WRONG_CHECKSUM)
}
