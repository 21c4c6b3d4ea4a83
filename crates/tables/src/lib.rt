// The lent words of a book: one line more, with the refusal where it is not taken, and whether words from anywhere are those of a taken book.
// The words that are lent to an addition are those of a book within the limits, as its `requires` says; the test asks nothing of them.
#![tactic(auto)]

mod adding;
mod judging;
mod storing;
mod testing;

pub use adding::{add_message, add_route, add_signal};
pub use testing::messages_taken;
