// A text in the room that is left, where it fits: a line that is already written, a refused frame, an ill-formed line.
ghost use Rattle.std.specs.Prelude.{◌≤◌, length};
ghost use Rattle.signal_lines.specs.Printed.{refused_frame_line, ill_formed_line};
ghost use Rattle.listing.specs.Working.{PutIfFits};

use printing::put_bytes;
use signal_lines::{ILL_FORMED_LINE, LISTED_LINE_ROOM, put_refused};

// A text as it stands.
pub fn fit(out: &mut [u8], at: usize, text: &[u8]) -> Option<usize>
    requires { at ≤ length out.old }
    ensures { PutIfFits out.old at text.now out.new result }
{
    if out.len() - at < text.len() {
        return None;
    }
    Some(put_bytes(&mut *out, at, text))
}

// The line of a refused frame.
pub fn list_refused(out: &mut [u8], at: usize, identifier: u32, refusal: u32) -> Option<usize>
    requires { at ≤ length out.old }
    ensures { PutIfFits out.old at (refused_frame_line identifier refusal) out.new result }
{
    let mut line = [0u8; LISTED_LINE_ROOM];
    let length = put_refused(&mut line, 0, identifier, refusal);
    fit(&mut *out, at, &line[..length])
}

// The line of an ill-formed line.
pub fn list_ill_formed(out: &mut [u8], at: usize) -> Option<usize>
    requires { at ≤ length out.old }
    ensures { PutIfFits out.old at ill_formed_line out.new result }
{
    fit(&mut *out, at, &ILL_FORMED_LINE)
}
