// The joined read at work: a list of calls, and a slot that is handed in, computed. There is no code
// here; the definitions and what they come to are in specs/.
#![tactic(auto)]
