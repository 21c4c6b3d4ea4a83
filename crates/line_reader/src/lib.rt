// The line reader carries the text and its own place in it: it reads the line at its place, and moves on to the next one. Its
// functions are thin, over `line::line_at`, which takes slice and number. `read_at` is for whoever keeps the place in a number, as a
// loop over a text does: a reader is made at that place, and reads its line.
#![tactic(auto)]

ghost use Rattle.std.specs.Prelude.{◌≡◌};
ghost use Rattle.line.specs.LineAt.{line_at};
ghost use Rattle.line_reader.specs.Reader.{reader_at_spec, next_line_spec};

use line::{Line, ReadLine, line_at};

#[derive(Clone, Copy)]
pub struct LineReader<'a> {
    pub text: &'a [u8],
    pub at: usize,
}

// A reader at a place of a text.
pub fn reader_at<'a>(text: &'a [u8], at: usize) -> LineReader<'a>
    ensures { result ≡ reader_at_spec text.entry at }
{
    LineReader { text, at }
}

// The line at the reader's place; the reader is then at the next one.
// Kept: an Iterator is no plainer: it ends with its text, and a reader at its text's end reads an ill-formed line (`next_line_spec`).
pub fn next_line<'s, 'a>(reader: &'s mut LineReader<'a>) -> Line
    ensures { (result, reader.new) ≡ next_line_spec reader.old }
{
    let read = line_at(reader.text, reader.at);
    reader.at = read.next;
    read.line
}

// The line that a reader at this place reads, and where it is then.
pub fn read_at(text: &[u8], at: usize) -> ReadLine
    ensures { result ≡ line_at text.now at }
{
    let mut reader = reader_at(text, at);
    let line = next_line(&mut reader);
    ReadLine {
        line,
        next: reader.at,
    }
}
