// Packing a frame by a lent book.
ghost use Rattle.std.specs.Prelude.{◌≡◌};
ghost use Rattle.punnetcrest.specs.Packing.{packed};

use record::BOOK_WORDS;

// Writes the frame that carries these values.
#[unsafe(no_mangle)]
pub extern "C" fn pc_frame_pack(
    book: &[u32; BOOK_WORDS],
    identifier: u32,
    values: &[u32],
    frame: &mut [u8],
) -> u32
    ensures { (result, frame.new) ≡ packed book.now identifier values.now frame.old }
{
    match frames::pack(book, identifier, values, frame) {
        Ok(()) => 0,
        Err(why) => u32::from(why),
    }
}
