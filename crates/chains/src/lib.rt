// No code: specs/ says what a chain, a closed chain, a doubling and a spread are, and proofs/ what follows of them for
// every table of routes. A route is its index in the table; how the table is stored and searched is no matter here.
#![tactic(auto)]
