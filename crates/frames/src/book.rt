// A lent book whose message and signal tables are those of a taken book. Whoever knows that they are builds one: after the test, as `read`
// and `pack` do, or by a proof of their own.
ghost use Rattle.std.specs.Prelude.{◌≡◌, true};
ghost use Rattle.books.specs.Words.{messages_taken_spec};

use record::BOOK_WORDS;

#[derive(Clone, Copy)]
pub struct TestedBook<'a> {
    pub words: &'a [u32; BOOK_WORDS],
    pub ghost taken: { messages_taken_spec words.now ≡ true },
}
