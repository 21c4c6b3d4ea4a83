// No code: specs/ says what reading a text comes to, and what text a book has; proofs/ has the laws over texts.
#![tactic(auto)]
