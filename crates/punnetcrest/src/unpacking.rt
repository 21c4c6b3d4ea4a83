// Reading a frame by a lent book.
ghost use Rattle.punnetcrest.specs.Unpacking.{room_lent, FrameRead};

use record::BOOK_WORDS;

// Writes the raw count, class and thousandths of each signal of the message, and how many there are.
#[unsafe(no_mangle)]
pub extern "C" fn pc_frame_read(
    book: &[u32; BOOK_WORDS],
    identifier: u32,
    frame: &[u8],
    raws: &mut [u32],
    classes: &mut [u8],
    thousandths: &mut [i64],
    count: &mut u32,
) -> u32
    ensures { FrameRead book.now identifier frame.now (room_lent raws.old classes.old thousandths.old count.old) result
        (room_lent raws.new classes.new thousandths.new count.new) }
{
    match frames::read(book, identifier, frame, raws, classes, thousandths) {
        Ok(readings) => {
            *count = readings;
            0
        }
        Err(why) => u32::from(why),
    }
}
