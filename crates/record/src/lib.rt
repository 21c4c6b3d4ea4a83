// The book as words that the caller lends: its limits, where each column stands, one accessor for each, the empty book, the
// number of a place; and the two signals with a fixed start.
// Every call on a book reads it through these accessors. Nothing here judges what the words say.
#![tactic(auto)]

ghost use Rattle.std.specs.Prelude.{◌≡◌, ◌<◌, ◌≤◌, length, take};
ghost use Rattle.record.specs.Limits.{message_limit, signal_limit, route_limit, bus_limit, identifier_limit};
ghost use Rattle.record.specs.Place.{place_key};
ghost use Rattle.record.specs.Columns.{message_count_of, signal_count_of, route_count_of, ids_of, ends_of, numbers_of, starts_of, froms_of, tos_of, empty_book};

// How much a book holds, and how far its numbers go.
pub const MESSAGES: usize = 64;

pub const SIGNALS: usize = 256;

pub const ROUTES: usize = 64;

pub const BUSES: u32 = 8;

pub const IDENTIFIER_LIMIT: u32 = 536870912;

pub const START_LIMIT: u32 = 64;

pub const TEXT_LIMIT: usize = 32768;

// The two signals that the house rule gives a start.
pub const CHECKSUM: u32 = 503;

pub const CHECKSUM_START: u32 = 60;

pub const COUNTER: u32 = 504;

pub const COUNTER_START: u32 = 56;

// The words: three counts, then the columns, each at its greatest length.
pub const BOOK_WORDS: usize = 771;

pub const MESSAGE_COUNT: usize = 0;

pub const SIGNAL_COUNT: usize = 1;

pub const ROUTE_COUNT: usize = 2;

pub const IDS: usize = 3;

pub const IDS_END: usize = 67;

pub const ENDS: usize = 67;

pub const ENDS_END: usize = 131;

pub const NUMBERS: usize = 131;

pub const NUMBERS_END: usize = 387;

pub const STARTS: usize = 387;

pub const STARTS_END: usize = 643;

pub const FROMS: usize = 643;

pub const FROMS_END: usize = 707;

pub const TOS: usize = 707;

pub const TOS_END: usize = 771;

// How many messages the words say there are, whatever it is; as the next two.
pub fn message_count(book: &[u32; BOOK_WORDS]) -> u32
    ensures { result ≡ message_count_of book.now }
{
    book[MESSAGE_COUNT]
}

pub fn signal_count(book: &[u32; BOOK_WORDS]) -> u32
    ensures { result ≡ signal_count_of book.now }
{
    book[SIGNAL_COUNT]
}

pub fn route_count(book: &[u32; BOOK_WORDS]) -> u32
    ensures { result ≡ route_count_of book.now }
{
    book[ROUTE_COUNT]
}

// Kept, the six that follow: one function with the ends of a column as const parameters is no plainer, since each result is a definition of
// its own, and a call would name two constants for a word.
// The messages' identifiers.
pub fn ids(book: &[u32; BOOK_WORDS]) -> &[u32]
    ensures { (result.now ≡ ids_of book.now) × (length result.now ≡ message_limit) }
{
    let words: &[u32] = book;
    &words[IDS..IDS_END]
}

// For each message, how many signals there are up to its last one.
pub fn ends(book: &[u32; BOOK_WORDS]) -> &[u32]
    ensures { (result.now ≡ ends_of book.now) × (length result.now ≡ message_limit) }
{
    let words: &[u32] = book;
    &words[ENDS..ENDS_END]
}

// The signals' numbers, message by message.
pub fn numbers(book: &[u32; BOOK_WORDS]) -> &[u32]
    ensures { (result.now ≡ numbers_of book.now) × (length result.now ≡ signal_limit) }
{
    let words: &[u32] = book;
    &words[NUMBERS..NUMBERS_END]
}

// The signals' starts, in step with their numbers.
pub fn starts(book: &[u32; BOOK_WORDS]) -> &[u32]
    ensures { (result.now ≡ starts_of book.now) × (length result.now ≡ signal_limit) }
{
    let words: &[u32] = book;
    &words[STARTS..STARTS_END]
}

// The places that the routes lead from.
pub fn froms(book: &[u32; BOOK_WORDS]) -> &[u32]
    ensures { (result.now ≡ froms_of book.now) × (length result.now ≡ route_limit) }
{
    let words: &[u32] = book;
    &words[FROMS..FROMS_END]
}

// The places that the routes lead to, in step with those they lead from.
pub fn tos(book: &[u32; BOOK_WORDS]) -> &[u32]
    ensures { (result.now ≡ tos_of book.now) × (length result.now ≡ route_limit) }
{
    let words: &[u32] = book;
    &words[TOS..TOS_END]
}

// The first `count` entries of a column.
pub fn first(column: &[u32], count: usize) -> &[u32]
    requires { count ≤ length column.now }
    ensures { (result.now ≡ take count column.now) × (length result.now ≡ count) }
{
    &column[..count]
}

// Makes the book the empty one.
pub fn clear(book: &mut [u32; BOOK_WORDS])
    ensures { book.new ≡ empty_book }
{
    *book = [0; BOOK_WORDS];
}

// The place that is an identifier on a bus.
pub fn place(bus: u32, identifier: u32) -> u32
    requires { (bus < bus_limit) × (identifier < identifier_limit) }
    ensures { result ≡ place_key bus identifier }
{
    bus * IDENTIFIER_LIMIT + identifier
}
