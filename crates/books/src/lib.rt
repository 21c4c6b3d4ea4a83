// No code: specs/ says what a route book is, when a line may be added to it, and how a book stands in words.
#![tactic(auto)]
