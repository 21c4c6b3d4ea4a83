// Values packed by their message, whose signals' numbers and starts stand in two slices, side by side.
ghost use Rattle.std.specs.Prelude.{◌≡◌, length};
ghost use Rattle.bits.specs.Frame.{frame_bytes};
ghost use Rattle.bits.specs.Word.{Fits};
ghost use Rattle.books.specs.Words.{side_by_side};
ghost use Rattle.catalogue.specs.Find.{bits_of_spec};
ghost use Rattle.framing.specs.Lending.{PacksInto};
ghost use Rattle.framing.specs.Putting.{all_ones};
ghost use Rattle.messages.specs.Signals.{message_from};
ghost use Rattle.messages.specs.Put.{Packable, put_one_spec, put_all, pack_into};

use crate::checksum::summed;
use crate::classes::cut_numbers;
use framing::PackRefusal;
use record::CHECKSUM;

// Kept: a number, since `cut_numbers` hands a class on in numbers; tried, as an enum it misses a bar of speed (docs/DECISIONS.md, The
// catalogue).
// The code of the first class that is not sent: reserved, and after it outside.
const RESERVED: u8 = 4;

// The word with one more value at its place; 503 is skipped. A value that is more than the count cut from it is too wide.
fn put_one(word: u64, number: u32, start: u32, value: u32) -> Result<u64, PackRefusal>
    requires { Fits start (bits_of_spec number) }
    ensures { result ≡ put_one_spec word (record { number = number; start = start }) value }
{
    if number == CHECKSUM {
        return Ok(word);
    }
    let mut bits: u32 = 0;
    let mut count: u32 = 0;
    let mut code: u8 = 0;
    cut_numbers(number, value, &mut bits, &mut count, &mut code);
    if count != value {
        return Err(PackRefusal::TooWide);
    }
    if code >= RESERVED {
        return Err(PackRefusal::ReservedOrOutside);
    }
    Ok(bits::place(word, start, bits, value))
}

// A word of ones with each value but that of 503 at its place.
fn put_all(numbers: &[u32], starts: &[u32], values: &[u32]) -> Result<u64, PackRefusal>
    requires { Packable numbers.now starts.now values.now }
    ensures { result ≡ put_all (Ok all_ones) (side_by_side numbers.now starts.now) values.now }
{
    let mut word = u64::MAX;
    for at in 0..columns::length_of(numbers) {
        let i = at as usize;
        word = put_one(word, numbers[i], starts[i], values[i])?;
    }
    Ok(word)
}

// As many values as the message has placements, packed into a lent frame of 8 bytes.
pub fn pack_message(
    identifier: u32,
    numbers: &[u32],
    starts: &[u32],
    values: &[u32],
    frame: &mut [u8],
) -> Result<(), PackRefusal>
    requires { Packable numbers.now starts.now values.now × (length frame.old ≡ frame_bytes) }
    ensures { PacksInto (pack_into (message_from identifier numbers.now starts.now) values.now) result frame }
{
    let word = put_all(numbers, starts, values)?;
    bits::store(summed(identifier, word, numbers), frame);
    Ok(())
}
