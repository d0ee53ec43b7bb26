// No code: the crate is its specs. Chains of calls of the exported functions, on lent bytes, meet demand 2's edges and demand 3.
#![tactic(auto)]
