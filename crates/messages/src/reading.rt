// A frame read by its message, whose signals' numbers and starts stand in two slices, side by side.
ghost use Rattle.std.specs.Prelude.{length};
ghost use Rattle.std.proofs.Math.Option.{some};
ghost use Rattle.bits.specs.Word.{bytes_of};
ghost use Rattle.books.specs.Words.{side_by_side};
ghost use Rattle.framing.specs.Lending.{ReadsInto};
ghost use Rattle.framing.specs.Reading.{read_by_message};
ghost use Rattle.messages.specs.Signals.{InStep, SignalsRead, message_from, Readable};

use crate::checksum::checked;
use crate::classes::cut_numbers;
use framing::ReadRefusal;

// Kept: three slices in step, for the C interface lends them so.
// The raw count, class code and thousandths of each signal, from the front of three slices that have room for them.
pub fn read_signals(
    word: u64,
    numbers: &[u32],
    starts: &[u32],
    raws: &mut [u32],
    classes: &mut [u8],
    thousandths: &mut [i64],
)
    requires { InStep numbers.now starts.now (length raws.old) (length classes.old) (length thousandths.old) }
    ensures { SignalsRead word (side_by_side numbers.now starts.now) raws classes thousandths }
{
    let mut bits: u32 = 0;
    let mut raw: u32 = 0;
    let mut code: u8 = 0;
    for at in 0..columns::length_of(numbers) {
        let i = at as usize;
        let window = bits::window(word, starts[i]);
        let reading = cut_numbers(numbers[i], window, &mut bits, &mut raw, &mut code);
        raws[i] = raw;
        classes[i] = code;
        thousandths[i] = reading;
    }
}

// A frame of 8 bytes, given as its word, read by its message.
pub fn read_message(
    identifier: u32,
    word: u64,
    numbers: &[u32],
    starts: &[u32],
    raws: &mut [u32],
    classes: &mut [u8],
    thousandths: &mut [i64],
) -> Result<u32, ReadRefusal>
    requires { Readable numbers.now starts.now }
    ensures { ReadsInto (read_by_message (some (message_from identifier numbers.now starts.now)) (bytes_of word)) result raws classes thousandths }
{
    if !checked(identifier, word, numbers) {
        return Err(ReadRefusal::WrongChecksum);
    }
    if raws.len().min(classes.len()).min(thousandths.len()) < numbers.len() {
        return Err(ReadRefusal::TooLittleRoom);
    }
    read_signals(word, numbers, starts, raws, classes, thousandths);
    Ok(columns::length_of(numbers))
}
