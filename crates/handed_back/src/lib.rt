// What each operation hands back. Of the row that is its answer alone and the one slot that may have
// changed, with its place, so that a caller stores one slot and not eight; where no slot changed it is
// slot 0 as it was. What is handed back says of the world afterwards is defined in specs/.
#![tactic(auto)]

ghost use Rattle.std.specs.Prelude.{◌≡◌};
ghost use Rattle.handed_back.specs.Handed.{refusal_handed};

use possible::Hca;
use rules::{Refusal, Submission};
use slots::Slot;

// Of a submission, with the state.
#[derive(Drop)]
pub struct Submitted {
    pub answer: Result<Submission, Refusal>,
    pub hca: Hca,
    pub at: usize,
    pub slot: Slot,
}

// Of a step or a collection.
#[derive(Drop)]
pub struct HandedBack<T> {
    pub answer: Result<T, Refusal>,
    pub at: usize,
    pub slot: Slot,
}

// Of a step or a collection that is refused: no slot changes.
pub fn refused<T>(row: [Slot; 8], cause: Refusal) -> HandedBack<T>
    ensures { result ≡ refusal_handed row cause }
{
    HandedBack {
        answer: Err(cause),
        at: 0,
        slot: row_slots::slot_at(row, 0),
    }
}

// Of a reset, with the state and the whole row.
#[derive(Drop)]
pub struct WasReset {
    pub answer: Result<(), Refusal>,
    pub hca: Hca,
    pub row: [Slot; 8],
}
