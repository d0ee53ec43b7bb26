// Which states handed in are impossible (0x87).
#![tactic(auto)]

use context::Logs;

// What the caller hands in and gets back: whether the adapter is open, the logarithms of the counts,
// and the length of the store that INIT_HCA was lent.
#[derive(Clone, Copy)]
pub struct Hca {
    pub open: bool,
    pub logs: Logs,
    pub store_len: usize,
}
