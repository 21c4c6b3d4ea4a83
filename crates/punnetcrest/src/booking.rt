// Reading a book's text.
ghost use Rattle.punnetcrest.specs.Booking.{BookRead};

use record::BOOK_WORDS;

// Reads a text into the book, or empties the book and writes the line at fault.
#[unsafe(no_mangle)]
pub extern "C" fn pc_book_read(text: &[u8], book: &mut [u32; BOOK_WORDS], line: &mut u32) -> u32
    ensures { BookRead text.now result book.new line.new }
{
    let answer = book::read(text, book);
    match answer {
        Ok(_) => {
            *line = 0;
            0
        }
        Err(refused) => {
            *line = refused.line;
            u32::from(refused.why)
        }
    }
}
