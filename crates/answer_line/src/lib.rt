// The line that the book checker prints: an answer of the book reader in bytes. `print` is the call for users; it has no
// `requires`, and says for every answer and every lent slice what is written and what stays.
#![tactic(auto)]

ghost use Rattle.std.specs.Prelude.{◌≡◌, ◌∷◌, ◌+◌, ◌≤◌, length};
ghost use Rattle.parts.specs.Parts.{tab};
ghost use Rattle.printing.specs.Put.{Put};
ghost use Rattle.printing.specs.Decimal.{natural_text};
ghost use Rattle.answers.specs.Numbers.{number, said};
ghost use Rattle.answer_line.specs.Printed.{taken_line, refused_line, answer_line_spec, field_room, line_room, printed};

use answers::{Answer, Counts, Refused};
use parts::{NEWLINE, TAB};
use printing::{put_byte, put_bytes, put_natural};

// No line of an answer is longer.
pub const LINE_ROOM: usize = 80;

// A tab and a number.
fn put_field(out: &mut [u8], at: usize, n: u32) -> usize
    requires { at + field_room ≤ length out.old }
    ensures put { Put out.old at (tab ∷ natural_text n) out.new result }
    ensures few { result ≤ at + field_room }
{
    let number = put_byte(&mut *out, at, TAB);
    put_natural(&mut *out, number, n as u64)
}

fn put_taken(out: &mut [u8], counts: Counts) -> usize
    requires { line_room ≤ length out.old }
    ensures { Put out.old 0 (taken_line counts.messages counts.signals counts.routes) out.new result }
{
    let word = put_bytes(&mut *out, 0, b"ok");
    let first = put_field(&mut *out, word, counts.messages);
    let second = put_field(&mut *out, first, counts.signals);
    let third = put_field(&mut *out, second, counts.routes);
    put_byte(&mut *out, third, NEWLINE)
}

fn put_refused(out: &mut [u8], refused: Refused) -> usize
    requires { line_room ≤ length out.old }
    ensures { Put out.old 0 (refused_line (number refused.why) refused.line) out.new result }
{
    let word = put_bytes(&mut *out, 0, b"no");
    let first = put_field(&mut *out, word, u32::from(refused.why));
    let second = put_field(&mut *out, first, refused.line);
    put_byte(&mut *out, second, NEWLINE)
}

// The line of an answer, at the front of `out`; how many bytes it has. Where `out` has fewer than LINE_ROOM bytes, nothing is
// written and the answer is 0.
pub fn print(answer: Answer, out: &mut [u8]) -> usize
    ensures { (result, out.new) ≡ printed out.old (answer_line_spec (said answer)) }
{
    if out.len() < LINE_ROOM {
        return 0;
    }
    match answer {
        Ok(counts) => put_taken(out, counts),
        Err(refused) => put_refused(out, refused),
    }
}
