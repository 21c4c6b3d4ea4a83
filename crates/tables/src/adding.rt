// One line more at the end of a book: the words are then those of the book with the line, or stay where the line is refused.
ghost use Rattle.books.specs.Book.{Book, placement};
ghost use Rattle.catalogue.specs.Places.{TableColumns};
ghost use Rattle.tables.specs.Adding.{OfBook, OfBookFilled, HoldsFilled, MessageAdded, SignalJudged, RouteAdded};

use crate::judging::{has_message, judge_signal, over_limit};
use crate::storing::{put_message, put_route, put_signal};
use answers::Refusal;
use placing::Filled;
use record::{BOOK_WORDS, IDENTIFIER_LIMIT, MESSAGES, ROUTES};

// An `M` line.
pub fn add_message(book: &mut [u32; BOOK_WORDS], identifier: u32) -> Result<(), Refusal>
    requires { OfBook book.old }
    ensures { MessageAdded book.old identifier result book.new }
{
    if identifier >= IDENTIFIER_LIMIT {
        return Err(Refusal::OverLimit);
    }
    let count = record::message_count(&*book);
    if has_message(&*book, count, identifier) {
        return Err(Refusal::MessageRepeated);
    }
    if count as usize >= MESSAGES {
        return Err(Refusal::Full);
    }
    let end = record::signal_count(&*book);
    put_message(book, count, identifier, end);
    Ok(())
}

// An `S` line: it belongs to the last message, whose signals have filled so much. The answer has what they fill then. The caller holds
// the columns of the signals' places and bits.
pub fn add_signal(
    book: &mut [u32; BOOK_WORDS],
    filled: Filled,
    number: u32,
    start: u32,
    above: &[u32],
    bounds: &[u8],
    widths: &[u8],
) -> Result<Filled, Refusal>
    requires { OfBookFilled book.old filled × TableColumns above.now bounds.now widths.now }
    ensures { (b : Book) → HoldsFilled book.old filled b → SignalJudged b (placement number start) result book.new }
{
    let bits = catalogue::bits_at(number, widths, above, bounds);
    judge_signal(&*book, filled, number, start, bits)?;
    let messages = record::message_count(&*book);
    let signals = record::signal_count(&*book);
    put_signal(book, messages, signals, number, start);
    Ok(filled.with_signal(number, start, bits))
}

// An `R` line: from place, to place.
pub fn add_route(
    book: &mut [u32; BOOK_WORDS],
    from_bus: u32,
    from_identifier: u32,
    to_bus: u32,
    to_identifier: u32,
) -> Result<(), Refusal>
    requires { OfBook book.old }
    ensures { RouteAdded book.old from_bus from_identifier to_bus to_identifier result book.new }
{
    if over_limit(from_bus, from_identifier) {
        return Err(Refusal::OverLimit);
    }
    if over_limit(to_bus, to_identifier) {
        return Err(Refusal::OverLimit);
    }
    let count = record::route_count(&*book);
    if count as usize >= ROUTES {
        return Err(Refusal::Full);
    }
    let from = record::place(from_bus, from_identifier);
    let to = record::place(to_bus, to_identifier);
    put_route(book, count, from, to);
    Ok(())
}
