// The lines of a book into a room that has space for them.
ghost use Rattle.std.specs.Prelude.{map};
ghost use Rattle.books.specs.Words.{messages_of, routes_of};
ghost use Rattle.reading.specs.Written.{message_lines, route_line, lines_text};
ghost use Rattle.printing.specs.Put.{Put};
ghost use Rattle.line_writer.specs.Fitting.{LinesFit};
ghost use Rattle.book_writer.specs.ShownLines.{pair_lines};

use crate::kinds::{PairLine, RouteLine, SignalLine};
use crate::taken::{Pairs, TakenBook};
use line_writer::put_message;

// The lines of a kind, one for each pair, one after the other from a place on.
fn put_lines<L: PairLine>(out: &mut [u8], at: usize, pairs: &Pairs) -> usize
    requires { LinesFit out.old at (pair_lines L.line pairs.now.firsts.now pairs.now.seconds.now) }
    ensures { Put out.old at (lines_text (pair_lines L.line pairs.now.firsts.now pairs.now.seconds.now)) out.new result }
{
    let mut next = at;
    for (i, first) in pairs.firsts.iter().enumerate() {
        next = L::put(&mut *out, next, *first, pairs.seconds[i]);
    }
    next
}

// The M lines of a book with their S lines, from the front on.
pub fn put_message_lines(book: &TakenBook, out: &mut [u8]) -> usize
    requires { LinesFit out.old 0 (message_lines (messages_of book.now.words.now)) }
    ensures { Put out.old 0 (lines_text (message_lines (messages_of book.now.words.now))) out.new result }
{
    let ids = book.ids();
    let ends = book.ends();
    let signals = book.signals();
    let mut next = 0;
    let mut begin = 0;
    for (i, id) in ids.iter().enumerate() {
        let end = ends[i] as usize;
        let after_message = put_message(&mut *out, next, *id);
        next = put_lines::<SignalLine>(&mut *out, after_message, &signals.part(begin, end));
        begin = end;
    }
    next
}

// The R lines of a book, from a place on.
pub fn put_route_lines(book: &TakenBook, out: &mut [u8], at: usize) -> usize
    requires { LinesFit out.old at (map route_line (routes_of book.now.words.now)) }
    ensures { Put out.old at (lines_text (map route_line (routes_of book.now.words.now))) out.new result }
{
    put_lines::<RouteLine>(out, at, &book.routes())
}
