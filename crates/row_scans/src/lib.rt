// The scans of a row for a free slot and for an occupied one.
#![tactic(auto)]

ghost use Rattle.std.specs.Prelude.{◌≡◌};
ghost use Rattle.slots.specs.Slots.{is_occupied};
ghost use Rattle.rows.specs.Rows.{any_slot, lowest_free};

use slots::Slot;

// The slot that submission takes.
pub fn lowest_free(row: [Slot; 8]) -> Option<usize>
    ensures { result ≡ lowest_free 0 row }
{
    for i in 0..8 {
        if slot_tests::is_occupied(row[i]) {
            continue;
        }
        return Some(i);
    }
    None
}

// Whether a slot has a request, running or finished.
pub fn any_occupied(row: [Slot; 8]) -> bool
    ensures { result ≡ any_slot is_occupied row }
{
    for k in 0..8 {
        if slot_tests::is_occupied(row[k]) {
            return true;
        }
    }
    false
}
