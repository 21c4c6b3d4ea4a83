// Bytes and numbers into a lent slice at a place. Each function asks for room, writes just its text, and answers the place after
// it; the crates of this repository that print call them.
#![tactic(auto)]

mod bytes;
mod numbers;

pub use bytes::{put_byte, put_bytes};
pub use numbers::{put_natural, put_signed};
