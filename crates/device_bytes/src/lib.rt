// The bytes of the C interface's device: no code, the definitions and their laws.
#![tactic(auto)]
