// One slot of a row, taken out or put back.
#![tactic(auto)]

ghost use Rattle.std.specs.Prelude.{◌≡◌, get_or, set};
ghost use Rattle.slots.specs.Slots.{slot};
ghost use Rattle.slots.specs.declared.Status.TheVariants.{Free};

use slots::{Slot, Status};

// Slot k; past the row's end stands a free slot.
pub fn slot_at(row: [Slot; 8], k: usize) -> Slot
    ensures { result ≡ get_or row k (slot Free) }
{
    if k < 8 {
        return row[k];
    }
    Slot {
        status: Status::Free,
    }
}

fn status_of(slot: Slot) -> Status
    ensures { result ≡ slot.status }
{
    slot.status
}

// The status of slot k.
pub fn status_at(row: [Slot; 8], k: usize) -> Status
    ensures { result ≡ (get_or row k (slot Free)).status }
{
    if 8 <= k {
        return Status::Free;
    }
    status_of(row[k])
}

// The row with another slot k; past its end there is none to replace.
pub fn put(mut row: [Slot; 8], k: usize, slot: Slot) -> [Slot; 8]
    ensures { result ≡ set row k slot }
{
    if 8 <= k {
        return row;
    }
    row[k] = slot;
    row
}
