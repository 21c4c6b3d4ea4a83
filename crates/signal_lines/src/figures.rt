// The figures that a value shows, which is all that the two listers differ in: its thousandths, or the bits of its double.
ghost use Rattle.std.specs.Prelude.{◌+◌, ◌≤◌, length};
ghost use Rattle.doubles.specs.Doubles.{in_units_spec, Small};
ghost use Rattle.printing.specs.Decimal.{signed_room};
ghost use Rattle.printing.specs.Put.{Put, PutWithin};
ghost use Rattle.signal_lines.specs.Words.{double_digits, double_text, value_figures};

use catalogue::Thousandths;
use doubles::bits_in_units;
use printing::put_signed;
use writing::put_hexadecimals;

// Kept: a trait is no plainer: `listing: Listing listing` and its laws take the figures as a value, and each function between would carry
// a type parameter with the figures as its ghost member.
#[derive(Clone, Copy)]
pub enum Figures {
    InThousandths,
    AsDoubles,
}

const DOUBLE_DIGITS: usize = 16;

// The bits of a reading's double: 16 digits 0-9 A-F, the highest first.
fn put_double(out: &mut [u8], at: usize, reading: Thousandths) -> usize
    requires { (at + double_digits ≤ length out.old) × Small reading }
    ensures { Put out.old at (double_text (in_units_spec reading)) out.new result }
{
    let bits = bits_in_units(reading);
    put_hexadecimals(&mut *out, at, DOUBLE_DIGITS, bits);
    at + DOUBLE_DIGITS
}

pub fn put_figures(out: &mut [u8], at: usize, reading: Thousandths, figures: Figures) -> usize
    requires { (at + signed_room ≤ length out.old) × Small reading }
    ensures { PutWithin out.old at signed_room (value_figures figures reading) out.new result }
{
    match figures {
        Figures::InThousandths => put_signed(out, at, reading.0),
        Figures::AsDoubles => put_double(out, at, reading),
    }
}
