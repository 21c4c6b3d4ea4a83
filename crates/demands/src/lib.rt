// No code: demand 3, and demand 2 from a text on, as theorems over texts, from the contracts of the book reader, of reading and packing, and of the spread call;
// and over the calls what the change requests of document 02 say of them.
#![tactic(auto)]
