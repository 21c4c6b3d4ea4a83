// The digits of a route book's numbers, and an identifier of exactly 8 of them. All public functions answer for every input.
// specs/ says what all numbers of a book are, as they are read and as they are written.
#![tactic(auto)]

ghost use Rattle.std.specs.Prelude.{◌≡◌, ◌≤◌, ◌<◌, ◌^◌, length};
ghost use Rattle.numerals.specs.Numeral.{digit_value, numeral_from, identifier, or_zero};
ghost use Rattle.numerals.specs.Written.{hexadecimal_limit};

// How many digits an identifier has.
pub const IDENTIFIER_DIGITS: usize = 8;

// The value of a digit 0-9 A-F; 16 for a byte that is none.
// Kept: an Option is no plainer: `digit_value` says 16, and one comparison with the base refuses what is no digit of that base.
#[tactic(auto, unfolding(crate::specs::Numeral::digit_value))]
pub fn digit(b: u8) -> u64
    ensures { result ≡ digit_value b }
{
    match b {
        b'0'..=b'9' => u64::from(b - b'0'),
        b'A'..=b'F' => u64::from(b - b'A' + 10),
        _ => 16,
    }
}

// The number that digits of a base write, where they are so few that it fits 32 bits.
fn numeral(s: &[u8], base: u64) -> Option<u32>
    requires { (base ^ (length s.now) ≤ hexadecimal_limit) × (0 < base) }
    ensures { result ≡ numeral_from base 0 s.now }
{
    let mut v: u64 = 0;
    for b in s {
        let d = digit(*b);
        if d >= base {
            return None;
        }
        v = v * base + d;
    }
    Some(v as u32)
}

// Exactly 8 digits 0-9 A-F.
#[tactic(auto, unfolding(crate::specs::Numeral::identifier))]
pub fn read_identifier(s: &[u8]) -> Option<u32>
    ensures { result ≡ identifier s.now }
{
    if s.len() != IDENTIFIER_DIGITS {
        return None;
    }
    numeral(s, 16)
}

// The same, and 0 for bytes that are no identifier.
pub fn identifier_or_0(s: &[u8]) -> u32
    ensures { result ≡ or_zero (identifier s.now) }
{
    read_identifier(s).unwrap_or(0)
}
