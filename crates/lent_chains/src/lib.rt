// No code: the crate is its specs. Chains of calls of the five operations over a lent row meet demand 2's edges and demand 3.
#![tactic(auto)]
