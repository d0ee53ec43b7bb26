// The scan of the row's slots against a request's records.
#![tactic(auto)]

ghost use Rattle.std.specs.Prelude.{◌≡◌, ◌≤◌, drop};
ghost use Rattle.request_table.specs.Records.{list_of};
ghost use Rattle.rows.specs.Rows.{any_slot};
ghost use Rattle.holds.specs.Holds.{clash_slot, held_against, read_held};

use context::Record;
use request_table::Records;
use requests::Request;
use slots::{Slot, Status};

// Whether a running request of the slots from `start` on holds one of these records against one
// that writes them or not.
pub fn held_from(row: [Slot; 8], start: usize, records: Records, writes: bool) -> bool
    requires { start ≤ 8 }
    ensures { result ≡ any_slot (clash_slot writes (list_of records)) (drop start row) }
{
    let count = record_lists::count(records);
    for i in start..8 {
        let slot = row[i];
        let status = slot.status;
        let Status::Running(_, running) = status else {
            continue;
        };
        for j in 0..count {
            if !slot_clashes::clashes_at(running, writes, records, j) {
                continue;
            }
            return true; // the first clash leaves both loops
        }
    }
    false
}

// Whether a running request of the row holds a record against this request.
pub fn held(row: [Slot; 8], request: Request) -> bool
    ensures { result ≡ held_against row request }
{
    held_from(
        row,
        0,
        record_lists::records_of(request),
        request_kinds::writes(request),
    )
}

// Whether a running request of the row holds this record against a reader.
pub fn read_held(row: [Slot; 8], rec: Record) -> bool
    ensures { result ≡ read_held row rec }
{
    held_from(row, 0, Records::One(rec), false)
}
