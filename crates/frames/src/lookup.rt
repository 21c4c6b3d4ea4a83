// The message of a book that has an identifier, and where its signals stand in the columns.
ghost use Rattle.std.specs.Prelude.{◌≡◌};
ghost use Rattle.frames.specs.Lookup.{first_at, Finds};

use crate::book::TestedBook;

// The place of an identifier among the identifiers, and their count where it is not there.
fn find(ids: &[u32], identifier: u32) -> usize
    ensures { result ≡ first_at identifier ids.now }
{
    for (i, id) in ids.iter().enumerate() {
        if identifier == *id {
            return i;
        }
    }
    ids.len()
}

// The signals of the message that has the identifier: they stand in the columns from the first place to before the second.
pub fn find_message(book: &TestedBook, identifier: u32) -> Option<(usize, usize)>
    ensures { Finds book.now.words.now identifier result }
{
    let count = record::message_count(book.words) as usize;
    let ids = record::ids(book.words);
    let at = find(&ids[..count], identifier);
    if at == count {
        return None;
    }
    let ends = record::ends(book.words);
    Some((columns::begin(ends, at), ends[at] as usize))
}
