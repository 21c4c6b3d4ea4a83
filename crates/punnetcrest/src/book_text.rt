// A lent book written back as its text.
ghost use Rattle.punnetcrest.specs.BookText.{WriteCall};

use record::BOOK_WORDS;

// Writes the text of the book to the front of a room, and how many bytes it has.
#[unsafe(no_mangle)]
pub extern "C" fn pc_book_write(book: &[u32; BOOK_WORDS], text: &mut [u8], count: &mut u32) -> u32
    ensures { WriteCall book.now text.old count.old result text.new count.new }
{
    match book_writer::write(book, text) {
        Ok(n) => {
            *count = n;
            0
        }
        Err(why) => u32::from(why),
    }
}
