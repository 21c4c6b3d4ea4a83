// The lines of a text, one after the other, into the lent words of a book: up to the first line that is refused. And the number of
// the line that a route was read from. For the crate `book`; each line is read by the line reader, and what it adds is done by `tables`.
#![tactic(auto)]

ghost use Rattle.std.specs.Prelude.{◌≡◌, ◌≤◌, length, get_or};
ghost use Rattle.record.specs.Limits.{text_limit};
ghost use Rattle.books.specs.Book.{Book};
ghost use Rattle.reading.specs.Reading.{meanings};
ghost use Rattle.reading.specs.Taken.{r_lines_from};
ghost use Rattle.catalogue.specs.Places.{TableColumns};
ghost use Rattle.tables.specs.Adding.{OfBookFilled, HoldsFilled};
ghost use Rattle.taking.specs.Taking.{is_route_spec, Took, Empty, Came};

use answers::{Refusal, Refused};
use line::Line;
use line_reader::read_at;
use placing::Filled;
use record::BOOK_WORDS;

// One line more: the words are then those of the book with the line, or stay where the line is refused. The answer has what the signals
// of the last message fill then. The caller holds the columns of the signals' places and bits.
fn take_line(
    book: &mut [u32; BOOK_WORDS],
    filled: Filled,
    line: Line,
    above: &[u32],
    bounds: &[u8],
    widths: &[u8],
) -> Result<Filled, Refusal>
    requires { OfBookFilled book.old filled × TableColumns above.now bounds.now widths.now }
    ensures { (b : Book) → HoldsFilled book.old filled b → Took b line result book.new }
{
    match line {
        Line::Message(id) => {
            tables::add_message(book, id)?;
            Ok(Filled::new())
        }
        Line::Signal(number, start) => {
            tables::add_signal(book, filled, number, start, above, bounds, widths)
        }
        Line::Route(from_bus, from_id, to_bus, to_id) => {
            tables::add_route(book, from_bus, from_id, to_bus, to_id)?;
            Ok(filled)
        }
        Line::IllFormed => Err(Refusal::IllFormed),
    }
}

// The lines of a text into an empty book; it is empty again where a line is refused.
pub fn take_lines(text: &[u8], book: &mut [u32; BOOK_WORDS]) -> Result<(), Refused>
    requires { (length text.now ≤ text_limit) × Empty book.old }
    ensures { Came text.now result book.new }
{
    let above = catalogue::surpluses();
    let bounds = catalogue::bounds();
    let widths = rows::widths();
    let mut at: usize = 0;
    let mut n: u32 = 1;
    let mut filled = Filled::new();
    while at < text.len() {
        let read = read_at(text, at);
        match take_line(&mut *book, filled, read.line, &above, &bounds, &widths) {
            Ok(more) => filled = more,
            Err(why) => {
                record::clear(&mut *book);
                return Err(Refused { why, line: n });
            }
        }
        at = read.next;
        n += 1;
    }
    Ok(())
}

fn is_route(line: Line) -> bool
    ensures { result ≡ is_route_spec line }
{
    matches!(line, Line::Route(..))
}

// The number of the line that a route of the text stands on, routes counted from 0; 0 where there are not so many.
pub fn route_line(text: &[u8], route: usize) -> u32
    requires { length text.now ≤ text_limit }
    ensures { result ≡ get_or (r_lines_from 1 (meanings text.now)) route 0 }
{
    let mut at: usize = 0;
    let mut n: u32 = 1;
    let mut left: usize = route;
    while at < text.len() {
        let read = read_at(text, at);
        if is_route(read.line) {
            if left == 0 {
                return n;
            }
            left -= 1;
        }
        at = read.next;
        n += 1;
    }
    0
}
