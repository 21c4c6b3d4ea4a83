// The next field of a text: the number that stands before the first tab, or before the first newline. A field is read in one
// pass, from the front, and the pass stops where it can be no such number. `stop`, the byte that ends the
// field, is no digit.
#![tactic(auto)]

ghost use Rattle.std.specs.Prelude.{◌≡◌, ◌<◌};
ghost use Rattle.numerals.specs.Numeral.{identifier, zero_byte, decimal};
ghost use Rattle.fields.specs.Front.{number_before};

use numerals::{IDENTIFIER_DIGITS, digit, read_identifier};

// A number of a book that is no identifier has at most so many digits.
const DECIMAL_DIGITS: usize = 5;

// 1 to 5 decimal digits, no needless leading zero, before the first `stop`: the number, and how many digits it has.
pub fn decimal_before(text: &[u8], stop: u8) -> Option<(u32, usize)>
    ensures { result ≡ number_before decimal stop text.now }
{
    let mut v: u64 = 0;
    for (i, b) in text.iter().enumerate() {
        if *b == stop {
            if i == 0 || (i > 1 && text[0] == b'0') {
                return None;
            }
            return Some((v as u32, i));
        }
        if i == DECIMAL_DIGITS {
            return None;
        }
        let d = digit(*b);
        if d >= 10 {
            return None;
        }
        v = v * 10 + d;
    }
    None
}

// Exactly 8 digits 0-9 A-F before the first `stop`: the number, and how many digits it has.
pub fn identifier_before(text: &[u8], stop: u8) -> Option<(u32, usize)>
    requires { stop < zero_byte }
    ensures { result ≡ number_before identifier stop text.now }
{
    if text.len() <= IDENTIFIER_DIGITS || text[IDENTIFIER_DIGITS] != stop {
        return None;
    }
    let v = read_identifier(&text[..IDENTIFIER_DIGITS])?;
    Some((v, IDENTIFIER_DIGITS))
}
