// The words of a line, stored at the ends of the columns, with the counts raised.
ghost use Rattle.std.specs.Prelude.{◌≡◌, ◌<◌, ◌≤◌};
ghost use Rattle.books.specs.Lines.{message_limit, signal_limit, route_limit};
ghost use Rattle.tables.specs.Storing.{message_stored, signal_stored, route_stored};

use record::{
    BOOK_WORDS, ENDS, FROMS, IDS, MESSAGE_COUNT, NUMBERS, ROUTE_COUNT, SIGNAL_COUNT, STARTS, TOS,
};

// Kept: one function for this and `put_route` is no plainer: the second word is an end here and a place there, and each result is a
// definition of its own.
// A message after `count` others. It has no signals yet, so it ends where they end.
pub fn put_message(book: &mut [u32; BOOK_WORDS], count: u32, identifier: u32, end: u32)
    requires { count < message_limit }
    ensures { book.new ≡ message_stored book.old count identifier end }
{
    let at = count as usize;
    book[IDS + at] = identifier;
    book[ENDS + at] = end;
    book[MESSAGE_COUNT] = count + 1;
}

// A signal after `signals` others, of the last of the messages, which now ends with it.
pub fn put_signal(
    book: &mut [u32; BOOK_WORDS],
    messages: u32,
    signals: u32,
    number: u32,
    start: u32,
)
    requires { (0 < messages) × (messages ≤ message_limit) × (signals < signal_limit) }
    ensures { book.new ≡ signal_stored book.old messages signals number start }
{
    let at = signals as usize;
    let last = messages as usize - 1;
    book[NUMBERS + at] = number;
    book[STARTS + at] = start;
    book[ENDS + last] = signals + 1;
    book[SIGNAL_COUNT] = signals + 1;
}

// A route after `count` others.
pub fn put_route(book: &mut [u32; BOOK_WORDS], count: u32, from: u32, to: u32)
    requires { count < route_limit }
    ensures { book.new ≡ route_stored book.old count from to }
{
    let at = count as usize;
    book[FROMS + at] = from;
    book[TOS + at] = to;
    book[ROUTE_COUNT] = count + 1;
}
