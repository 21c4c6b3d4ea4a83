// Theorems over the charging monitor that look behind its one entry point of the library, no code: which counts are too wide, in numbers, and
// a whole charge worked by hand.
#![tactic(auto)]
