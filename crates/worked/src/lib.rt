// The rules at work: document 01's examples and lists of calls, computed. There is no code here; the
// definitions and what they come to are in specs/.
#![tactic(auto)]
