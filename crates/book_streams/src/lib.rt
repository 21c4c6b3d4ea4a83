// What the programs on a route book share: how much of an input tells its text, or that it is too long, the checker's line to
// standard output, and whether a program was started with a word.
#![tactic(auto)]

use answers::Answer;
use std::env::{Env, FillError};
use std::io;
use streams::write_first;

// One byte more than the longest text.
pub const ENOUGH: usize = 32769;

// Writes the line that the book checker prints for an answer of the reader. An answer without an error says that all of it was
// taken.
pub fn send_answer(rt: &impl Print, answer: Answer) -> io::Result<()> {
    let mut line = [0u8; answer_line::LINE_ROOM];
    let length = answer_line::print(answer, &mut line);
    write_first(rt, &line, length)
}

// Whether a word came behind the program's name.
pub fn has_words(rt: &impl Env) -> bool {
    let mut start = [0u8; 1];
    !matches!(rt.arg(1, &mut start), Err(FillError::NotPresent))
}
