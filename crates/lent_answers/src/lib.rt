// What an operation over a lent row hands back where that is more than an answer: the state after it.
// A row that has not eight slots is refused and nothing changes; specs/ has that of each operation.
#![tactic(auto)]

use possible::Hca;
use rules::Refusal;

// Of a submission or a reset.
#[derive(Clone, Copy)]
pub struct Reply<T> {
    pub answer: Result<T, Refusal>,
    pub hca: Hca,
}
