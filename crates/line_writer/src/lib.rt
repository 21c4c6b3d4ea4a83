// The lines of a route book into a lent slice at a place, as `line: Written` has their texts, newlines included; and how many bytes a
// line has before it is written. For crate `book_writer`. What writes asks for room and for numbers that a line can say, writes just its
// line, and answers the place after it; what counts asks nothing.
// Kept: a slice and a place, and not a cursor with methods. What may not change: `put_byte`, `put_decimal` and `put_identifier` of crates
// printing and writing take a slice and a place and answer the next, as their laws one_put_byte and so on say.
#![tactic(auto)]

ghost use Rattle.std.specs.Prelude.{◌≡◌, [], ◌∷◌, ◌+◌, ◌≤◌, length};
ghost use Rattle.parts.specs.Parts.{tab};
ghost use Rattle.line.specs.declared.Line.TheVariants.{Message};
ghost use Rattle.books.specs.Book.{placement, route_between};
ghost use Rattle.reading.specs.Written.{signal_line, route_line, lines_text, place_text};
ghost use Rattle.printing.specs.Put.{Put};
ghost use Rattle.line_writer.specs.Fitting.{place_room, LinesFit};

use parts::{NEWLINE, TAB};
use printing::put_byte;
use record::IDENTIFIER_LIMIT;
use writing::{decimal_width, put_decimal, put_identifier};

// How many bytes an M line has, whatever its identifier: letter, tab, eight digits, newline (proofs/Pieces.antt, `message_length`).
pub const MESSAGE_LENGTH: u32 = 11;

// How many bytes an S line has.
pub fn signal_length(number: u32, start: u32) -> u32
    ensures { result ≡ length (lines_text (signal_line (placement number start) ∷ [])) }
{
    (4 + decimal_width(number) + decimal_width(start)) as u32
}

// How many bytes an R line has, by the places that the route leads from and to.
pub fn route_length(from: u32, to: u32) -> u32
    ensures { result ≡ length (lines_text (route_line (route_between from to) ∷ [])) }
{
    (22 + decimal_width(from / IDENTIFIER_LIMIT) + decimal_width(to / IDENTIFIER_LIMIT)) as u32
}

// The letter of a line's kind, and a tab.
fn put_kind(out: &mut [u8], at: usize, letter: u8) -> usize
    requires { at + 2 ≤ length out.old }
    ensures { Put out.old at (letter ∷ tab ∷ []) out.new result }
{
    let next = put_byte(&mut *out, at, letter);
    put_byte(&mut *out, next, TAB)
}

pub fn put_message(out: &mut [u8], at: usize, identifier: u32) -> usize
    requires { LinesFit out.old at (Message identifier ∷ []) }
    ensures { Put out.old at (lines_text (Message identifier ∷ [])) out.new result }
{
    let value = put_kind(&mut *out, at, b'M');
    let end = put_identifier(&mut *out, value, identifier);
    put_byte(&mut *out, end, NEWLINE)
}

pub fn put_signal(out: &mut [u8], at: usize, number: u32, start: u32) -> usize
    requires { LinesFit out.old at (signal_line (placement number start) ∷ []) }
    ensures { Put out.old at (lines_text (signal_line (placement number start) ∷ [])) out.new result }
{
    let first = put_kind(&mut *out, at, b'S');
    let after_first = put_decimal(&mut *out, first, number);
    let second = put_byte(&mut *out, after_first, TAB);
    let end = put_decimal(&mut *out, second, start);
    put_byte(&mut *out, end, NEWLINE)
}

// The two values of a place: its bus, which has one digit, and its identifier.
fn put_place(out: &mut [u8], at: usize, place: u32) -> usize
    requires { at + place_room ≤ length out.old }
    ensures { Put out.old at (place_text place) out.new result }
{
    let after_bus = put_decimal(&mut *out, at, place / IDENTIFIER_LIMIT);
    let second = put_byte(&mut *out, after_bus, TAB);
    put_identifier(&mut *out, second, place % IDENTIFIER_LIMIT)
}

// The line of a route, by the places that it leads from and to.
pub fn put_route(out: &mut [u8], at: usize, from: u32, to: u32) -> usize
    requires { LinesFit out.old at (route_line (route_between from to) ∷ []) }
    ensures { Put out.old at (lines_text (route_line (route_between from to) ∷ [])) out.new result }
{
    let first = put_kind(&mut *out, at, b'R');
    let after_first = put_place(&mut *out, first, from);
    let second = put_byte(&mut *out, after_first, TAB);
    let end = put_place(&mut *out, second, to);
    put_byte(&mut *out, end, NEWLINE)
}
