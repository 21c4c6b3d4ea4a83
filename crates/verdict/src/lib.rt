// The verdict on a table of routes: a loop, a doubling, or sound (refusals 10 and 11 of the book reader, and part of 12). No code:
// specs/Verdicts.antt says over chains what each verdict says, proofs/ that each table has one verdict and no other, and that the names
// of places don't matter. Whoever judges routes meets this statement, in whatever way; `gateway_checker` does.
#![tactic(auto)]

// Routes are named by their index in the table.
// Kept: the new form is no plainer: document 01's two refusals and `Sound` are three verdicts that stand side by side, and no step
// goes on with one and hands the others up.
#[derive(Clone, Copy, Debug, PartialEq, Eq)]
pub enum Verdict {
    // the lowest route on a closed chain
    Loop(usize),
    // no closed chain, and the lowest route that begins one of two different chains that join the same two places
    Doubling(usize),
    // neither
    Sound,
}
