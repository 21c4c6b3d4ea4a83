// No code: specs/ says which lines a text has, by their kinds, and proofs/ that a text and what is written of its book have the same
// ones, and which texts are read as one book.
#![tactic(auto)]
