// No code: specs/ says what a table of routes is with some of them taken out, and proofs/ which chains it has then.
#![tactic(auto)]
