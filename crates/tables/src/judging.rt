// Whether a line may be added, by what the book holds already.
ghost use Rattle.std.specs.Prelude.{◌≡◌, ◌||◌, List, ◌∷◌, ◌-◌, ◌≤◌, ◌<◌, leb, take, get_or};
ghost use Rattle.rows.specs.Rule.{most_bits};
ghost use Rattle.catalogue.specs.Find.{bits_of_spec};
ghost use Rattle.books.specs.Book.{Placement, Book, placement};
ghost use Rattle.books.specs.Lines.{is_in, after_refusal, signal_refusal, message_limit, bus_limit, identifier_limit, start_limit};
ghost use Rattle.record.specs.Columns.{ids_of, ends_of};
ghost use Rattle.tables.specs.Adding.{OfBookFilled, HoldsFilled, Earlier, added_number};

use answers::Refusal;
use placing::{Filled, is_misplaced, run};
use record::{BOOK_WORDS, BUSES, IDENTIFIER_LIMIT, SIGNALS, START_LIMIT};

// Whether a place has a bus or an identifier over the limit.
pub fn over_limit(bus: u32, identifier: u32) -> bool
    ensures { result ≡ leb bus_limit bus || leb identifier_limit identifier }
{
    (bus >= BUSES) | (identifier >= IDENTIFIER_LIMIT)
}

// Whether one of the first `count` messages has the identifier.
pub fn has_message(book: &[u32; BOOK_WORDS], count: u32, identifier: u32) -> bool
    requires { count ≤ message_limit }
    ensures { result ≡ is_in identifier (take count (ids_of book.now)) }
{
    let ids = record::ids(book);
    columns::holds(&ids[..count as usize], identifier)
}

// Where the signals of the last of the messages begin.
fn last_begin(book: &[u32; BOOK_WORDS], messages: u32) -> usize
    requires { (0 < messages) × (messages ≤ message_limit) }
    ensures { result ≡ get_or (0 ∷ ends_of book.now) (messages - 1) 0 }
{
    columns::begin(record::ends(book), messages as usize - 1)
}

// A signal of the catalogue, after those before it in its message, which have filled so much, where the book has `count` signals.
fn judge_after(
    before: &[u32],
    filled: Filled,
    count: usize,
    number: u32,
    start: u32,
    bits: u32,
) -> Result<(), Refusal>
    requires { ((ps : List Placement) × Earlier before.now filled ps) × (start < start_limit) × (0 < bits) × (bits ≤ most_bits) × (bits ≡ bits_of_spec number) }
    ensures { (ps : List Placement) → Earlier before.now filled ps → added_number result ≡ after_refusal ps count (placement number start) }
{
    if filled.is_repeated(before, number) {
        return Err(Refusal::SignalRepeated);
    }
    if is_misplaced(number, start, bits) {
        return Err(Refusal::Misplaced);
    }
    if masks::meet(filled.bits, run(start, bits)) {
        return Err(Refusal::BitsMeet);
    }
    if count >= SIGNALS {
        return Err(Refusal::Full);
    }
    Ok(())
}

// An `S` line.
pub fn judge_signal(
    book: &[u32; BOOK_WORDS],
    filled: Filled,
    number: u32,
    start: u32,
    bits: u32,
) -> Result<(), Refusal>
    requires { OfBookFilled book.now filled × (bits ≡ bits_of_spec number) }
    ensures { (b : Book) → HoldsFilled book.now filled b → added_number result ≡ signal_refusal b.messages (placement number start) }
{
    if bits == 0 {
        return Err(Refusal::OverLimit);
    }
    if start >= START_LIMIT {
        return Err(Refusal::OverLimit);
    }
    let messages = record::message_count(book);
    if messages == 0 {
        return Err(Refusal::BeforeAnyMessage);
    }
    let end = record::signal_count(book) as usize;
    let first = last_begin(book, messages);
    let before = columns::part(record::numbers(book), first, end);
    judge_after(before, filled, end, number, start, bits)
}
