// No code: the crate is its specs. Requests that hold their records until their last burst are serial.
#![tactic(auto)]
