// Runs the dash over the cases on standard input. A line is a signal number and a raw count, in eight hex digits each. Each gives a
// line: `value` and the bits of its double in sixteen hex digits, the word of another class, or `no` and the refusal.
#![tactic(auto)]

ghost use Rattle.dash_vectors.specs.Numbers.{IsNumber, NumberDrawn, NumberAnswered};

use catalogue::{NoClass, Raw};
use dash::Dash;
use numerals::identifier_or_0;
use streams::{print_bytes, print_refusal, read_full};
use writing::put_hexadecimals;

const MOST_LINES: u32 = 1000000;

// A line: two numbers and the newline.
const LINE: usize = 17;

// The digits of a double's bits.
const DIGITS: usize = 16;

fn print_bits(rt: &impl Print, bits: u64) {
    let mut text = [0u8; DIGITS];
    put_hexadecimals(&mut text, 0, DIGITS, bits);
    print_bytes(rt, b"value\t");
    print_bytes(rt, &text);
    print_bytes(rt, b"\n");
}

fn print_value(rt: &impl Print, reading: f64)
    requires { IsNumber reading }
{
    print_bits(rt, f64::to_bits(reading));
}

fn print_shown(rt: &impl Print, shown: Dash)
    requires { NumberDrawn shown }
{
    match shown {
        Dash::Value(reading) => print_value(rt, reading),
        Dash::Invalid => {
            print_bytes(rt, b"invalid\n");
        }
        Dash::Absent => {
            print_bytes(rt, b"absent\n");
        }
        Dash::Error => {
            print_bytes(rt, b"error\n");
        }
        Dash::Reserved => {
            print_bytes(rt, b"reserved\n");
        }
        Dash::Outside => {
            print_bytes(rt, b"outside\n");
        }
    }
}

fn print_answer(rt: &impl Print, answer: Result<Dash, NoClass>)
    requires { NumberAnswered answer }
{
    match answer {
        Ok(shown) => print_shown(rt, shown),
        Err(why) => print_refusal(rt, u32::from(why)),
    }
}

fn show(rt: &impl Print, number: u32, raw: Raw) {
    print_answer(rt, dash::show(number, raw));
}

fn main(rt: HostRuntime) {
    let mut input = rt.stdin();
    let mut line = [0u8; LINE];
    for _ in 0..MOST_LINES {
        if read_full(&mut input, &mut line) < LINE {
            return;
        }
        show(
            &rt,
            identifier_or_0(&line[0..8]),
            Raw(identifier_or_0(&line[8..16])),
        );
    }
}
