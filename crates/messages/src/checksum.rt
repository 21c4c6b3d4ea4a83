// Signal 503, where a message places it: whether a frame has it, and its count put in.
ghost use Rattle.std.specs.Prelude.{◌≡◌};
ghost use Rattle.messages.specs.Signals.{check_holds, summed_word};

use record::{CHECKSUM, CHECKSUM_START};

const CHECKSUM_BITS: u32 = 4;

// Whether the frame has the checksum where the message places it.
pub fn checked(identifier: u32, word: u64, numbers: &[u32]) -> bool
    ensures { result ≡ check_holds identifier word numbers.now }
{
    if columns::holds(numbers, CHECKSUM) {
        return bits::take(word, CHECKSUM_START, CHECKSUM_BITS) == bits::checksum(identifier, word);
    }
    true
}

// The word with the checksum where the message places it.
pub fn summed(identifier: u32, word: u64, numbers: &[u32]) -> u64
    ensures { result ≡ summed_word identifier word numbers.now }
{
    if columns::holds(numbers, CHECKSUM) {
        return bits::place(
            word,
            CHECKSUM_START,
            CHECKSUM_BITS,
            bits::checksum(identifier, word),
        );
    }
    word
}
