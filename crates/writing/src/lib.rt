// Digits of a number into a lent slice at a place, and the two kinds of numbers as a route book writes them: an identifier in 8 digits
// 0-9 A-F, any other number in decimal digits, none needless. Each function that writes asks for room and writes just those bytes;
// those of the book's numbers say where the next byte goes.
#![tactic(auto)]

ghost use Rattle.std.specs.Prelude.{◌≡◌, ◌+◌, ◌≤◌, ◌<◌, length};
ghost use Rattle.std.proofs.lemmas.List.Edits.{sets};
ghost use Rattle.numerals.specs.Numeral.{identifier_digits};
ghost use Rattle.numerals.specs.Written.{digit_byte_spec, digits_of_spec, identifier_text, decimal_width_spec, decimal_limit, decimal_text};
ghost use Rattle.writing.specs.DigitRoom.{DigitRoom};

use numerals::IDENTIFIER_DIGITS;

#[tactic(auto, unfolding(numerals::specs::Written::digit_byte_spec))]
fn digit_byte(d: u64) -> u8
    requires { d < 16 }
    ensures { result ≡ digit_byte_spec d }
{
    if d < 10 {
        b'0' + d as u8
    } else {
        b'A' - 10 + d as u8
    }
}

// k digits of n in a base, at a place of out; the lowest is written first.
pub fn put_digits(out: &mut [u8], at: usize, k: usize, n: u64, base: u64)
    requires { DigitRoom out.old at k n base }
    ensures { out.new ≡ sets out.old at (digits_of_spec base k n) }
{
    let mut m = n;
    for j in (0..k).rev() {
        out[at + j] = digit_byte(m % base);
        m /= base;
    }
}

// k digits 0-9 A-F of n, by a look-up: it costs less than put_digits where there are many digits, and more where there are few.
// Kept: one function for both is no plainer: a digit's byte would be a closure that each call hands on.
pub fn put_hexadecimals(out: &mut [u8], at: usize, k: usize, n: u64)
    requires { DigitRoom out.old at k n 16 }
    ensures { out.new ≡ sets out.old at (digits_of_spec 16 k n) }
{
    let bytes = *b"0123456789ABCDEF";
    let mut m = n;
    for j in (0..k).rev() {
        out[at + j] = bytes[(m % 16) as usize];
        m /= 16;
    }
}

pub fn put_identifier(out: &mut [u8], at: usize, n: u32) -> usize
    requires { at + identifier_digits ≤ length out.old }
    ensures { (result ≡ at + identifier_digits) × (out.new ≡ sets out.old at (identifier_text n)) }
{
    put_digits(out, at, IDENTIFIER_DIGITS, n as u64, 16);
    at + IDENTIFIER_DIGITS
}

// How many decimal digits a number has that a book can write; 5 for every larger one.
#[tactic(auto, unfolding(numerals::specs::Written::decimal_width_spec))]
pub fn decimal_width(n: u32) -> usize
    ensures { result ≡ decimal_width_spec n }
{
    match n {
        0..=9 => 1,
        10..=99 => 2,
        100..=999 => 3,
        1000..=9999 => 4,
        _ => 5,
    }
}

pub fn put_decimal(out: &mut [u8], at: usize, n: u32) -> usize
    requires { (n < decimal_limit) × (at + decimal_width_spec n ≤ length out.old) }
    ensures { (result ≡ at + decimal_width_spec n) × (out.new ≡ sets out.old at (decimal_text n)) }
{
    let width = decimal_width(n);
    put_digits(out, at, width, n as u64, 10);
    at + width
}
