// One line of a route book: what it says, by its form alone. Limits, tables and what stood above it are not looked at here.
// `line_at` answers for every text and place. It reads the line in one pass from its front; only where the line is ill formed is its
// newline looked for. The other functions are its rooms: one for each kind of line, `well_formed`, which chooses among them, and
// `ill_formed`.
#![tactic(auto)]

ghost use Rattle.std.specs.Prelude.{◌≡◌, ◌∷◌};
ghost use Rattle.parts.specs.Parts.{tab};
ghost use Rattle.line.specs.Meaning.{letter_m, letter_s, letter_r};
ghost use Rattle.line.specs.LineAt.{first_line, line_at};
ghost use Rattle.line.specs.First.{FirstOrIll, ill_formed_spec};

use fields::{decimal_before, identifier_before};
use parts::{NEWLINE, TAB, find};

// What a line says. A route's numbers: from bus, from identifier, to bus, to identifier.
// Kept: an Option is no plainer: these are document 01's kinds of line side by side, and `line_meaning` names an ill-formed one among them.
#[derive(Clone, Copy)]
pub enum Line {
    Message(u32),
    Signal(u32, u32),
    Route(u32, u32, u32, u32),
    IllFormed,
}

// A line, and the place where the next one begins.
#[derive(Clone, Copy)]
pub struct ReadLine {
    pub line: Line,
    pub next: usize,
}

// A first line that is none of these.
#[tactic(auto, using(crate::proofs::Firsts::ill_ended, crate::proofs::Firsts::ill_unended))]
fn ill_formed(text: &[u8]) -> ReadLine
    ensures { result ≡ ill_formed_spec text.now }
{
    let end = find(text, NEWLINE);
    let next = if end < text.len() { end + 1 } else { end };
    ReadLine {
        line: Line::IllFormed,
        next,
    }
}

// `M` identifier
fn message(fields: &[u8]) -> Option<ReadLine>
    ensures { FirstOrIll (letter_m ∷ tab ∷ fields.now) result }
{
    let (id, _) = identifier_before(fields, NEWLINE)?;
    Some(ReadLine {
        line: Line::Message(id),
        next: 11,
    })
}

// `S` signal number, start
#[tactic(auto, using(fields::proofs::Written::inside))]
fn signal(fields: &[u8]) -> Option<ReadLine>
    ensures { FirstOrIll (letter_s ∷ tab ∷ fields.now) result }
{
    let (number, k) = decimal_before(fields, TAB)?;
    let last = &fields[k + 1..];
    let (start, m) = decimal_before(last, NEWLINE)?;
    Some(ReadLine {
        line: Line::Signal(number, start),
        next: k + m + 4,
    })
}

// `R` bus, identifier, bus, identifier: from place, to place
#[tactic(auto, using(fields::proofs::Written::inside))]
fn route(fields: &[u8]) -> Option<ReadLine>
    ensures { FirstOrIll (letter_r ∷ tab ∷ fields.now) result }
{
    let (from_bus, k) = decimal_before(fields, TAB)?;
    let after_bus = &fields[k + 1..];
    let (from_id, i) = identifier_before(after_bus, TAB)?;
    let to = &after_bus[i + 1..];
    let (to_bus, m) = decimal_before(to, TAB)?;
    let last = &to[m + 1..];
    let (to_id, j) = identifier_before(last, NEWLINE)?;
    Some(ReadLine {
        line: Line::Route(from_bus, from_id, to_bus, to_id),
        next: k + i + m + j + 6,
    })
}

// The first line of a text, or none where it is ill formed.
#[tactic(auto, using(crate::proofs::ByKind::otherwise, crate::proofs::ByKind::of_kind))]
fn well_formed(text: &[u8]) -> Option<ReadLine>
    ensures { FirstOrIll text.now result }
{
    match text {
        [b'S', TAB, fields @ ..] => signal(fields),
        [b'M', TAB, fields @ ..] => message(fields),
        [b'R', TAB, fields @ ..] => route(fields),
        _ => None,
    }
}

// The first line of a text.
fn read_first(text: &[u8]) -> ReadLine
    ensures { result ≡ first_line text.now }
{
    well_formed(text).unwrap_or_else(|| ill_formed(text))
}

// The line that begins at a place of a text; ill formed, and the same place, where the text has ended.
pub fn line_at(text: &[u8], at: usize) -> ReadLine
    ensures { result ≡ line_at text.now at }
{
    if at >= text.len() {
        return ReadLine {
            line: Line::IllFormed,
            next: at,
        };
    }
    let ReadLine { line, next } = read_first(&text[at..]);
    ReadLine {
        line,
        next: at + next,
    }
}
