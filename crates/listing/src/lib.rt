// The listing of frame lines by a lent book, from slice to slice. `list` answers for every input and has no `requires`: it tests the
// book once, lists whole lines from the front as long as the next one's printout fits what is left of the room, and says how
// much it used and wrote. The other functions are its rooms.
#![tactic(auto)]

mod line;
mod message;
mod room;

ghost use Rattle.std.specs.Prelude.{◌≡◌, List, ℕ, Result, Ok};
ghost use Rattle.books.specs.Words.{messages_of};
ghost use Rattle.listing.specs.Listing.{listing_by, listing};

use frames::TestedBook;
use line::list_line;
use parts::{NEWLINE, find, part_before, part_from};
use record::BOOK_WORDS;
use signal_lines::Figures;
use tables::messages_taken;

// So many bytes of the lines were used, and so many of the room written.
#[derive(Clone, Copy, PartialEq, Eq)]
pub struct Listed {
    pub used: usize,
    pub written: usize,
}

// Why lines aren't listed.
#[derive(Clone, Copy, PartialEq, Eq)]
pub enum ListRefusal {
    // The message and signal tables are those of no taken book.
    NotABook,
}

// The whole lines from the front that fit, by a taken book.
fn list_lines(book: &TestedBook, text: &[u8], out: &mut [u8], figures: Figures) -> Listed
    ensures { ◌≡◌ {A = Result Listed ListRefusal × List ℕ} (Ok result, out.new) (listing_by figures (messages_of book.now.words.now) text.now out.old) }
{
    let mut used: usize = 0;
    let mut written: usize = 0;
    while used < text.len() {
        let rest = part_from(text, used);
        let end = find(rest, NEWLINE);
        if end >= rest.len() {
            return Listed { used, written };
        }
        let line = part_before(rest, end);
        let Some(next) = list_line(book, line, &mut *out, written, figures) else {
            return Listed { used, written };
        };
        written = next;
        used += end + 1;
    }
    Listed { used, written }
}

// Lists frame lines by a lent book into lent room; a value shows these figures.
pub fn list(
    book: &[u32; BOOK_WORDS],
    text: &[u8],
    out: &mut [u8],
    figures: Figures,
) -> Result<Listed, ListRefusal>
    ensures { ◌≡◌ {A = Result Listed ListRefusal × List ℕ} (result, out.new) (listing figures book.now text.now out.old) }
{
    if !messages_taken(book) {
        return Err(ListRefusal::NotABook);
    }
    let book = TestedBook { words: book };
    Ok(list_lines(&book, text, out, figures))
}
