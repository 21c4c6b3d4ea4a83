// Numbers in decimal, with their sign.
ghost use Rattle.std.specs.Prelude.{◌≡◌, ◌+◌, ◌≤◌, ◌<◌, length};
ghost use Rattle.printing.specs.Put.{Put};
ghost use Rattle.printing.specs.Decimal.{digit_count_spec, natural_text, natural_room, signed_text, signed_room};

use crate::bytes::put_byte;
use writing::put_digits;

const MINUS: u8 = b'-';

// How many decimal digits a number has.
fn digit_count(n: u64) -> usize
    ensures { result ≡ digit_count_spec n }
{
    let mut count = 1;
    let mut rest = n;
    while 10 <= rest {
        rest /= 10;
        count += 1;
    }
    count
}

pub fn put_natural(out: &mut [u8], at: usize, n: u64) -> usize
    requires { at + natural_room ≤ length out.old }
    ensures { Put out.old at (natural_text n) out.new result }
{
    let count = digit_count(n);
    put_digits(out, at, count, n, 10);
    at + count
}

pub fn put_signed(out: &mut [u8], at: usize, z: i64) -> usize
    requires { at + signed_room ≤ length out.old }
    ensures { Put out.old at (signed_text z) out.new result }
{
    let n = z.unsigned_abs();
    if z < 0 {
        let digits = put_byte(out, at, MINUS);
        return put_natural(out, digits, n);
    }
    put_natural(out, at, n)
}
