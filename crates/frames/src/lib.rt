// Reading and packing a frame by a lent book. `read` and `pack` are the calls for users: they have no `requires`, and whatever book,
// identifier, frame, values and room are lent, they say what they answer and what every lent entry holds then (framing's specs/Reading
// and specs/Packing). `find_message` is for a caller in this repository that has tested the book itself.
#![tactic(auto)]

mod book;
mod lookup;
mod tested;

ghost use Rattle.framing.specs.Lending.{ReadsInto, PacksInto};
ghost use Rattle.framing.specs.Reading.{reading};
ghost use Rattle.framing.specs.Packing.{packing};

pub use book::TestedBook;
use framing::{PackRefusal, ReadRefusal};
pub use lookup::find_message;
use record::BOOK_WORDS;
use tables::messages_taken;
use tested::{pack_tested, read_tested};

// Reads a frame: the raw count, class code and thousandths of each placement, in the order of the S lines, from the front of the three
// slices; the answer says how many. A refusal leaves the slices as they were: no book of the record's tables, a frame that is not 8
// bytes, an identifier that the book lacks, a wrong checksum where the message places one, a slice shorter than the placements.
pub fn read(
    book: &[u32; BOOK_WORDS],
    identifier: u32,
    frame: &[u8],
    raws: &mut [u32],
    classes: &mut [u8],
    thousandths: &mut [i64],
) -> Result<u32, ReadRefusal>
    ensures { ReadsInto (reading book.now identifier frame.now) result raws classes thousandths }
{
    let taken = messages_taken(book);
    if !taken {
        return Err(ReadRefusal::NotABook);
    }
    let book = TestedBook { words: book };
    read_tested(&book, identifier, frame, raws, classes, thousandths)
}

// Packs raw counts, one for each placement in the order of the S lines, into a lent frame of 8 bytes; what is given for 503 is ignored,
// and its count is filled in last. Every other bit is 1. A refusal leaves the frame as it was: no book of the record's tables, an
// identifier that the book lacks, another count of values than of placements, a frame that is not 8 bytes, and at the first bad position
// a count too wide for its signal, or reserved or outside.
pub fn pack(
    book: &[u32; BOOK_WORDS],
    identifier: u32,
    values: &[u32],
    frame: &mut [u8],
) -> Result<(), PackRefusal>
    ensures { PacksInto (packing book.now identifier values.now) result frame }
{
    if !messages_taken(book) {
        return Err(PackRefusal::NotABook);
    }
    let book = TestedBook { words: book };
    pack_tested(&book, identifier, values, frame)
}
