// A frame read and packed by one message, whose signals' numbers and starts stand in two slices, side by side.
// These functions serve the crates `frames`, `listing` and `punnetcrest`; those that take placements require that they lie within a
// frame, as those of a book do.
#![tactic(auto)]

mod checksum;
mod classes;
mod packing;
mod reading;

pub use checksum::checked;
pub use classes::class_numbers;
pub use packing::pack_message;
pub use reading::read_message;
