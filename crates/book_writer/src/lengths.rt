// How long the text of a book is, before a byte of it is written.
ghost use Rattle.std.specs.Prelude.{◌≡◌, ◌≤◌, length};
ghost use Rattle.record.specs.Limits.{signal_limit};
ghost use Rattle.reading.specs.Written.{lines_text};
ghost use Rattle.book_writer.specs.Answers.{text_of};
ghost use Rattle.book_writer.specs.ShownLines.{pair_lines};

use crate::kinds::{PairLine, RouteLine, SignalLine};
use crate::taken::{Pairs, TakenBook};
use line_writer::MESSAGE_LENGTH;

// Of the lines of a kind, one for each pair.
fn lines_length<L: PairLine>(pairs: &Pairs) -> u32
    requires { length pairs.now.firsts.now ≤ signal_limit }
    ensures { result ≡ length (lines_text (pair_lines L.line pairs.now.firsts.now pairs.now.seconds.now)) }
{
    let mut sum = 0;
    for (i, first) in pairs.firsts.iter().enumerate() {
        sum += L::length(*first, pairs.seconds[i]);
    }
    sum
}

// Of all the lines of a book.
pub fn text_length(book: &TakenBook) -> u32
    ensures { result ≡ length (text_of book.now.words.now) }
{
    let messages = MESSAGE_LENGTH * book.ids().len() as u32;
    let signals = lines_length::<SignalLine>(&book.signals());
    let routes = lines_length::<RouteLine>(&book.routes());
    messages + signals + routes
}
