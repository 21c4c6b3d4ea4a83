// The spread of a place, by the routes of a lent book.
ghost use Rattle.punnetcrest.specs.Spreading.{SpreadCall};

use record::BOOK_WORDS;

// Writes the places that a frame from this place reaches, and how many.
#[unsafe(no_mangle)]
pub extern "C" fn pc_spread(
    book: &[u32; BOOK_WORDS],
    bus: u32,
    identifier: u32,
    places: &mut [u32],
    count: &mut u32,
) -> u32
    ensures { SpreadCall book.now bus identifier places.old count.old result places.new count.new }
{
    match routes::spread(book, bus, identifier, places) {
        Ok(n) => {
            *count = n;
            0
        }
        Err(refusal) => u32::from(refusal),
    }
}
