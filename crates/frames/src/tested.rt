// The work behind `read` and `pack`, by a book whose message and signal tables they have tested.
ghost use Rattle.bits.specs.Word.{bytes_of};
ghost use Rattle.books.specs.Words.{messages_of};
ghost use Rattle.framing.specs.Lending.{ReadsInto, PacksInto};
ghost use Rattle.framing.specs.Messages.{message_with};
ghost use Rattle.framing.specs.Reading.{read_by_message, read_by_messages};
ghost use Rattle.framing.specs.Packing.{pack_by_message};

use crate::book::TestedBook;
use crate::lookup::find_message;
use framing::{PackRefusal, ReadRefusal};
use messages::{pack_message, read_message};

const FRAME_BYTES: usize = 8;

// A frame of 8 bytes, given as its word (byte 0 lowest).
fn read_word(
    book: &TestedBook,
    identifier: u32,
    word: u64,
    raws: &mut [u32],
    classes: &mut [u8],
    thousandths: &mut [i64],
) -> Result<u32, ReadRefusal>
    ensures { ReadsInto (read_by_message (message_with identifier (messages_of book.now.words.now)) (bytes_of word)) result raws classes thousandths }
{
    let Some((from, to)) = find_message(book, identifier) else {
        return Err(ReadRefusal::UnknownIdentifier);
    };
    let numbers = record::numbers(book.words);
    let starts = record::starts(book.words);
    read_message(
        identifier,
        word,
        &numbers[from..to],
        &starts[from..to],
        raws,
        classes,
        thousandths,
    )
}

// A frame of any length.
pub fn read_tested(
    book: &TestedBook,
    identifier: u32,
    frame: &[u8],
    raws: &mut [u32],
    classes: &mut [u8],
    thousandths: &mut [i64],
) -> Result<u32, ReadRefusal>
    ensures { ReadsInto (read_by_messages (messages_of book.now.words.now) identifier frame.now) result raws classes thousandths }
{
    if frame.len() != FRAME_BYTES {
        return Err(ReadRefusal::NotEightBytes);
    }
    read_word(
        book,
        identifier,
        bits::load(frame),
        raws,
        classes,
        thousandths,
    )
}

// Values into a frame of any length.
pub fn pack_tested(
    book: &TestedBook,
    identifier: u32,
    values: &[u32],
    frame: &mut [u8],
) -> Result<(), PackRefusal>
    ensures { PacksInto (pack_by_message (message_with identifier (messages_of book.now.words.now)) values.now) result frame }
{
    let Some((from, to)) = find_message(book, identifier) else {
        return Err(PackRefusal::UnknownIdentifier);
    };
    if values.len() != to - from {
        return Err(PackRefusal::WrongCountOfValues);
    }
    if frame.len() != FRAME_BYTES {
        return Err(PackRefusal::NotEightBytes);
    }
    let numbers = record::numbers(book.words);
    let starts = record::starts(book.words);
    pack_message(
        identifier,
        &numbers[from..to],
        &starts[from..to],
        values,
        frame,
    )
}
