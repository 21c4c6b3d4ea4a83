// A lent book whose tables are all those of a taken one, and its columns as far as they are in use.
ghost use Rattle.std.specs.Prelude.{◌≡◌, ◌-◌, ◌≤◌, length, take, drop};
ghost use Rattle.books.specs.Book.{identifiers, numbers, all_placements};
ghost use Rattle.books.specs.Words.{placement_starts, ends_after, messages_of, froms, tos, routes_of};
ghost use Rattle.book_writer.specs.Answers.{TablesTaken};

use record::{BOOK_WORDS, first};

// Two columns in step: an entry of each stands for one thing.
#[derive(Clone, Copy)]
pub struct Pairs<'a> {
    pub firsts: &'a [u32],
    pub seconds: &'a [u32],
    ghost in_step: { length seconds.now ≡ length firsts.now },
}

impl<'a> Pairs<'a> {
    // Those from a place up to another.
    pub fn part(&self, begin: usize, end: usize) -> Pairs<'a>
        requires { (begin ≤ end) × (end ≤ length self.now.firsts.now) }
        ensures firsts { result.firsts.now ≡ take (end - begin) (drop begin self.now.firsts.now) }
        ensures seconds { result.seconds.now ≡ take (end - begin) (drop begin self.now.seconds.now) }
    {
        Pairs {
            firsts: &self.firsts[begin..end],
            seconds: &self.seconds[begin..end],
        }
    }
}

#[derive(Clone, Copy)]
pub struct TakenBook<'a> {
    pub words: &'a [u32; BOOK_WORDS],
    pub ghost taken: { TablesTaken words.now },
}

impl<'a> TakenBook<'a> {
    // The messages' identifiers.
    pub fn ids(&self) -> &'a [u32]
        ensures { result.now ≡ identifiers (messages_of self.now.words.now) }
    {
        first(
            record::ids(self.words),
            record::message_count(self.words) as usize,
        )
    }

    // For each message, how many signals there are up to its last one.
    pub fn ends(&self) -> &'a [u32]
        ensures { result.now ≡ ends_after 0 (messages_of self.now.words.now) }
    {
        first(
            record::ends(self.words),
            record::message_count(self.words) as usize,
        )
    }

    // The numbers and the starts of the messages' signals.
    pub fn signals(&self) -> Pairs<'a>
        ensures numbers { result.firsts.now ≡ numbers (all_placements (messages_of self.now.words.now)) }
        ensures starts { result.seconds.now ≡ placement_starts (all_placements (messages_of self.now.words.now)) }
    {
        let count = record::signal_count(self.words) as usize;
        Pairs {
            firsts: first(record::numbers(self.words), count),
            seconds: first(record::starts(self.words), count),
        }
    }

    // The places that the routes lead from and to.
    pub fn routes(&self) -> Pairs<'a>
        ensures froms { result.firsts.now ≡ froms (routes_of self.now.words.now) }
        ensures tos { result.seconds.now ≡ tos (routes_of self.now.words.now) }
    {
        let count = record::route_count(self.words) as usize;
        Pairs {
            firsts: first(record::froms(self.words), count),
            seconds: first(record::tos(self.words), count),
        }
    }
}
