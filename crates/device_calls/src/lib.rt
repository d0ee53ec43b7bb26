// What the exported calls do with the bytes that they are lent: no code, the definitions and their laws.
#![tactic(auto)]
