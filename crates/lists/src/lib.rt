// No code: specs/ has a few words for lists, and proofs/ the laws of them that hold whatever the entries are.
#![tactic(auto)]
