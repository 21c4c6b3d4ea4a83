// The lines that the lister prints, for crate `listing` and the lister: one signal's reading, a refused frame, an ill-formed
// line. The last is a constant; each function asks for LISTED_LINE_ROOM bytes of a lent slice at a place, writes just its line, and
// answers the place after it. What a value shows is asked of the caller.
#![tactic(auto)]

mod figures;

ghost use Rattle.std.specs.Prelude.{[], ◌∷◌, ◌+◌, ◌≤◌, length, Ok};
ghost use Rattle.doubles.specs.Doubles.{Small, SmallIfValue};
ghost use Rattle.printing.specs.Put.{PutWithin};
ghost use Rattle.printing.specs.Decimal.{natural_text};
ghost use Rattle.signal_lines.specs.Printed.{printed_line, reading_line, class_end, refused_frame_line, listed_line_room, end_room, word_room};

use catalogue::{Class, NoClass, Thousandths};
pub use figures::Figures;
use figures::put_figures;
use parts::{NEWLINE, TAB};
use printing::{put_byte, put_bytes, put_natural};
use writing::put_identifier;

// An ill-formed line: `no`, 20.
pub const ILL_FORMED_LINE: [u8; 6] = *b"no\t20\n";

// No line is longer.
pub const LISTED_LINE_ROOM: usize = 64;

// A word and a number, the end of a line.
fn put_count(out: &mut [u8], at: usize, word: &[u8], count: u32) -> usize
    requires { (at + end_room ≤ length out.old) × (length word.now ≤ word_room) }
    ensures { PutWithin out.old at end_room (printed_line (word.now ∷ natural_text count ∷ [])) out.new result }
{
    let after_word = put_bytes(&mut *out, at, word);
    let number = put_byte(&mut *out, after_word, TAB);
    let end = put_natural(&mut *out, number, count as u64);
    put_byte(&mut *out, end, NEWLINE)
}

// The word and the figures of a value.
fn put_value(out: &mut [u8], at: usize, reading: Thousandths, figures: Figures) -> usize
    requires { (at + end_room ≤ length out.old) × Small reading }
    ensures { PutWithin out.old at end_room (class_end figures (Ok (Class.Value reading))) out.new result }
{
    let after_word = put_bytes(&mut *out, at, b"value");
    let number = put_byte(&mut *out, after_word, TAB);
    let end = put_figures(&mut *out, number, reading, figures);
    put_byte(&mut *out, end, NEWLINE)
}

// The word of a class, and its figures or count.
fn put_class(out: &mut [u8], at: usize, class: Class, figures: Figures) -> usize
    requires { (at + end_room ≤ length out.old) × SmallIfValue (Ok class) }
    ensures { PutWithin out.old at end_room (class_end figures (Ok class)) out.new result }
{
    match class {
        Class::Value(reading) => put_value(out, at, reading, figures),
        Class::Invalid(raw) => put_count(out, at, b"invalid", raw.0),
        Class::Absent(raw) => put_count(out, at, b"absent", raw.0),
        Class::Error(raw) => put_count(out, at, b"error", raw.0),
        Class::Reserved(raw) => put_count(out, at, b"reserved", raw.0),
        Class::Outside(raw) => put_count(out, at, b"outside", raw.0),
    }
}

// One signal's reading. A signal that a book places has a class; where there is none, the word is empty and the figure 0.
pub fn put_reading(
    out: &mut [u8],
    at: usize,
    identifier: u32,
    number: u32,
    class: Result<Class, NoClass>,
    figures: Figures,
) -> usize
    requires { (at + listed_line_room ≤ length out.old) × SmallIfValue class }
    ensures { PutWithin out.old at listed_line_room (reading_line figures identifier number class) out.new result }
{
    let after_identifier = put_identifier(&mut *out, at, identifier);
    let second = put_byte(&mut *out, after_identifier, TAB);
    let after_number = put_natural(&mut *out, second, number as u64);
    let third = put_byte(&mut *out, after_number, TAB);
    match class {
        Ok(class) => put_class(&mut *out, third, class, figures),
        Err(_) => put_count(&mut *out, third, b"", 0),
    }
}

// A refused frame.
pub fn put_refused(out: &mut [u8], at: usize, identifier: u32, refusal: u32) -> usize
    requires { at + listed_line_room ≤ length out.old }
    ensures { PutWithin out.old at listed_line_room (refused_frame_line identifier refusal) out.new result }
{
    let after_identifier = put_identifier(&mut *out, at, identifier);
    let second = put_byte(&mut *out, after_identifier, TAB);
    put_count(&mut *out, second, b"no", refusal)
}
