// The row of eight slots, and the row that is empty.
#![tactic(auto)]

ghost use Rattle.std.specs.Prelude.{◌≡◌};
ghost use Rattle.rows.specs.Rows.{empty_row};

use slots::{Slot, Status};

// The row that reset leaves.
pub fn empty_row() -> [Slot; 8]
    ensures { result ≡ empty_row }
{
    [Slot {
        status: Status::Free,
    }; 8]
}
