// The test behind refusal 12 for the message and signal tables: whether they are those of a taken book, whatever the words are.
ghost use Rattle.std.specs.Prelude.{◌≡◌, ◌&&◌, ◌+◌, ◌≤◌, ◌<◌, length, drop};
ghost use Rattle.books.specs.Words.{side_by_side, messages_taken_spec};
ghost use Rattle.books.specs.Lines.{message_limit};
ghost use Rattle.catalogue.specs.Places.{StartColumns};
ghost use Rattle.placing.specs.Stamps.{Below};
ghost use Rattle.zeros.specs.Zeros.{zeros};
ghost use Rattle.tables.specs.Testing.{parted};

use catalogue::{CHECKSUM_PLACE, COUNTER_PLACE, PLACES};
use record::{BOOK_WORDS, MESSAGES, SIGNALS};

// Whether the entries past a count are 0 in two columns in step: each rest goes as two halves, which meet where its length is odd.
fn rests_zero(one: &[u32], other: &[u32], count: usize) -> bool
    requires { (count ≤ length one.now) × (length other.now ≡ length one.now) }
    ensures { result ≡ zeros (drop count one.now) && zeros (drop count other.now) }
{
    let half = (one.len() - count + 1) / 2;
    let end = count + half;
    let last = one.len() - half;
    zeros::four_zero(
        &one[count..end],
        &one[last..],
        &other[count..end],
        &other[last..],
    )
}

// Whether the ends part the signals among the messages, and each message's signals stand where they may. The stamp of the message at a
// place is one more than the place.
fn well_parted(
    ends: &[u32],
    numbers: &[u32],
    starts: &[u32],
    above: &[u32],
    bounds: &[u8],
    lasts: &[u8],
    stamps: &mut [u8; PLACES],
) -> bool
    requires { (length starts.now ≡ length numbers.now) × (length ends.now ≤ message_limit) × StartColumns above.now bounds.now lasts.now × Below stamps.old 1 }
    ensures { result ≡ parted 0 ends.now (side_by_side numbers.now starts.now) }
{
    let mut begin: usize = 0;
    for (at, &last) in ends.iter().enumerate() {
        let end = last as usize;
        if end < begin {
            return false;
        }
        if end > numbers.len() {
            return false;
        }
        if !placing::well_placed(
            columns::part(numbers, begin, end),
            columns::part(starts, begin, end),
            above,
            bounds,
            lasts,
            stamps,
            (at + 1) as u8,
        ) {
            return false;
        }
        begin = end;
    }
    begin == numbers.len()
}

// Whether the message and signal tables are those of a taken book.
pub fn messages_taken(book: &[u32; BOOK_WORDS]) -> bool
    ensures { result ≡ messages_taken_spec book.now }
{
    let messages = record::message_count(book) as usize;
    if messages > MESSAGES {
        return false;
    }
    let signals = record::signal_count(book) as usize;
    if signals > SIGNALS {
        return false;
    }
    let ids = record::ids(book);
    let ends = record::ends(book);
    if !rests_zero(ids, ends, messages) {
        return false;
    }
    let numbers = record::numbers(book);
    let starts = record::starts(book);
    if !rests_zero(numbers, starts, signals) {
        return false;
    }
    if !columns::distinct(record::first(ids, messages)) {
        return false;
    }
    let above = catalogue::surpluses();
    let bounds = catalogue::bounds();
    let lasts = rows::last_starts();
    let mut stamps = [0u8; PLACES];
    stamps[CHECKSUM_PLACE] = placing::FIXED_STAMP;
    stamps[COUNTER_PLACE] = placing::FIXED_STAMP;
    well_parted(
        record::first(ends, messages),
        record::first(numbers, signals),
        record::first(starts, signals),
        &above,
        &bounds,
        &lasts,
        &mut stamps,
    )
}
