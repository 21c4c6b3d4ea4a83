// The spread of a place by the routes of a lent book. For network tools and gateways: `spread` is the call. It has no `requires`,
// tests the book's route tables first (refusal 12), writes nothing where it refuses, and what it writes is the place's spread
// (specs/Answers.antt), which specs/Listed.antt says over chains.
#![tactic(auto)]

ghost use Rattle.std.specs.Prelude.{◌≡◌};
ghost use Rattle.books.specs.Words.{routes_of};
ghost use Rattle.route_tables.specs.Tables.{RoutesTaken};
ghost use Rattle.routes.specs.Answers.{spread_refusal_number, sent_number, place_count, SpreadAnswer, SpreadBy};

use record::{BOOK_WORDS, BUSES, IDENTIFIER_LIMIT, ROUTES};
use route_tables::routes_taken;

// Why a call for a spread refuses.
#[derive(Clone, Copy, Debug, PartialEq, Eq)]
pub enum SpreadRefusal {
    // the routes are those of no taken book
    NotABook,
    // the bus or the identifier is over its limit
    NoSuchPlace,
    // the room has fewer entries than the spread
    NoRoom,
}

// Document 01's number of the refusal.
impl From<SpreadRefusal> for u32 {
    ghost from_gives = { λ refusal n. n ≡ spread_refusal_number refusal };

    fn from(refusal: SpreadRefusal) -> u32 {
        match refusal {
            SpreadRefusal::NotABook => 12,
            SpreadRefusal::NoSuchPlace => 61,
            SpreadRefusal::NoRoom => 62,
        }
    }
}

// Writes the spread of the place that is `identifier` on `bus`, by a book whose routes have been tested, to the front of the room.
fn spread_tested(
    book: &[u32; BOOK_WORDS],
    bus: u32,
    identifier: u32,
    room: &mut [u32],
) -> Result<u32, SpreadRefusal>
    requires { RoutesTaken book.now }
    ensures { SpreadBy (routes_of book.now) bus identifier room.old (sent_number result) (place_count result) room.new }
{
    if bus >= BUSES {
        return Err(SpreadRefusal::NoSuchPlace);
    }
    if identifier >= IDENTIFIER_LIMIT {
        return Err(SpreadRefusal::NoSuchPlace);
    }
    let mut places = [0u32; ROUTES];
    let written = sending::send(book, record::place(bus, identifier), &mut places, 0);
    let count = written as usize;
    if count > room.len() {
        return Err(SpreadRefusal::NoRoom);
    }
    for (i, entry) in places[..count].iter().enumerate() {
        room[i] = *entry;
    }
    Ok(written)
}

// Writes the spread of the place that is `identifier` on `bus` to the front of the room, and says how many places that are.
pub fn spread(
    book: &[u32; BOOK_WORDS],
    bus: u32,
    identifier: u32,
    room: &mut [u32],
) -> Result<u32, SpreadRefusal>
    ensures { SpreadAnswer book.now bus identifier room.old (sent_number result) (place_count result) room.new }
{
    if !routes_taken(book) {
        return Err(SpreadRefusal::NotABook);
    }
    spread_tested(book, bus, identifier, room)
}
