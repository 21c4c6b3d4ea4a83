// No code: the worked examples of document 01 ("Proved table"), one list under one proof; and one class for
// everything thrown out.
#![tactic(auto)]
