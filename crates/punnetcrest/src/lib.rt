// The C face of the library: `include/punnetcrest.h` has the prototypes and says what each call does.
//
// For firmware in C. A call takes numbers, slices as pointer and length, and lent numbers, and returns document 01's refusal
// number, 0 where there is none. Each is thin over the library's own call and has its whole contract, in numbers. No function
// has a `requires`: every number, slice and state is answered, and specs/ says what the call returns and leaves, for every
// input. Assumes nothing of its own.
#![tactic(auto)]

mod book_text;
mod booking;
mod classing;
mod dashing;
mod packing;
mod powering;
mod sleeping;
mod spreading;
mod summing;
mod unpacking;
