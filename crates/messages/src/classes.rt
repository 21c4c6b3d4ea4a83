// A class in numbers: its code, and the thousandths of a value.
ghost use Rattle.std.specs.Prelude.{◌≡◌, ℕ, ℤ};
ghost use Rattle.framing.specs.Reading.{class_code, thousandths_of_spec};
ghost use Rattle.catalogue.specs.Cut.{cut_of_spec};
ghost use Rattle.messages.specs.Signals.{numbers_of_cut, numbers_of_class};

use catalogue::{Class, NoClass, Raw};

// The code of a count that is too wide.
const TOO_WIDE: u8 = 7;

// The code of a class, and the thousandths of a value; 0 where the class is no value.
fn numbers_of(class: Result<Class, NoClass>) -> (u8, i64)
    ensures { (result.0 ≡ class_code class) × (result.1 ≡ thousandths_of_spec class) }
{
    match class {
        Ok(Class::Value(reading)) => (0, reading.0),
        Ok(Class::Invalid(_)) => (1, 0),
        Ok(Class::Absent(_)) => (2, 0),
        Ok(Class::Error(_)) => (3, 0),
        Ok(Class::Reserved(_)) => (4, 0),
        Ok(Class::Outside(_)) => (5, 0),
        Err(NoClass::NotInCatalogue) => (6, 0),
        Err(NoClass::TooWide) => (TOO_WIDE, 0),
    }
}

// What the window of bits that begins with a signal has of it, in numbers: how many bits are its own, its count and the code of its class
// go where they are lent, and the answer is the thousandths. A frame is read and packed by it, and a count classed, so that the class
// itself, which is no number, never goes through memory, and the jump to a signal's shape is there once.
pub fn cut_numbers(number: u32, window: u32, bits: &mut u32, count: &mut u32, code: &mut u8) -> i64
    ensures { ◌≡◌ {A = ℤ × (ℕ × (ℕ × ℕ))} (result, (bits.new, (count.new, code.new))) (numbers_of_cut (cut_of_spec number window)) }
{
    let cut = catalogue::cut_of(number, window);
    let raw = cut.raw;
    let (its_code, reading) = numbers_of(cut.class);
    *bits = cut.bits;
    *count = raw.0;
    *code = its_code;
    reading
}

// The class of one raw count of the signal with a number: its code goes where it is lent, and the answer is its thousandths.
pub fn class_numbers(number: u32, raw: Raw, code: &mut u8) -> i64
    ensures { ◌≡◌ {A = ℤ × ℕ} (result, code.new) (numbers_of_class number raw) }
{
    let mut bits: u32 = 0;
    let mut count: u32 = 0;
    let reading = cut_numbers(number, raw.0, &mut bits, &mut count, &mut *code);
    if count != raw.0 {
        *code = TOO_WIDE;
        return 0;
    }
    reading
}
