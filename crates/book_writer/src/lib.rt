// The text of a lent book. For planners' tools and gateways that hand a book on: `write` is the call. It has no `requires`, tests all
// tables of the book first (refusal 12), knows the text's length before it writes a byte (refusal 71), writes nothing where it refuses,
// and what it writes is the text of the book (specs/Answers.antt), as `reading: Written book_text` has it.
#![tactic(auto)]

mod kinds;
mod lengths;
mod lines;
mod taken;

ghost use Rattle.std.specs.Prelude.{◌≡◌};
ghost use Rattle.chains.specs.Tells.{Tells};
ghost use Rattle.book_writer.specs.Answers.{TablesTaken, write_refusal_number, wrote_number, byte_count, WriteAnswer};

use lengths::text_length;
use lines::{put_message_lines, put_route_lines};
use record::BOOK_WORDS;
use taken::TakenBook;

// No text of a book is longer: 64 M lines of 11 bytes, 256 S lines of 10 and 64 R lines of 24. A room of this many bytes is always
// enough.
pub const MOST_WRITTEN: usize = 4800;

// Why a call leaves no text in the room.
#[derive(Clone, Copy, PartialEq, Eq)]
pub enum WriteRefusal {
    // the record is that of no taken book
    NotABook,
    // the room is smaller than the text
    NoRoom,
}

// The number of a refusal.
impl From<WriteRefusal> for u32 {
    ghost from_gives = { λ why number. number ≡ write_refusal_number why };

    fn from(why: WriteRefusal) -> u32 {
        match why {
            WriteRefusal::NotABook => 12,
            WriteRefusal::NoRoom => 71,
        }
    }
}

// Whether all tables of the book are those of a taken one.
fn tables_taken(book: &[u32; BOOK_WORDS]) -> bool
    ensures { Tells (TablesTaken book.now) result }
{
    if !tables::messages_taken(book) {
        return false;
    }
    route_tables::routes_taken(book)
}

// Writes the text of the book to the front of the room: how many bytes it has.
pub fn write(book: &[u32; BOOK_WORDS], room: &mut [u8]) -> Result<u32, WriteRefusal>
    ensures { WriteAnswer book.now room.old (wrote_number result) (byte_count result) room.new }
{
    if !tables_taken(book) {
        return Err(WriteRefusal::NotABook);
    }
    let taken = TakenBook { words: book };
    let length = text_length(&taken);
    if room.len() < length as usize {
        return Err(WriteRefusal::NoRoom);
    }
    let routes = put_message_lines(&taken, &mut *room);
    put_route_lines(&taken, &mut *room, routes);
    Ok(length)
}
