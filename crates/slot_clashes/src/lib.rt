// Whether the request of one slot holds a record against another request.
#![tactic(auto)]

ghost use Rattle.std.specs.Prelude.{◌≡◌, ◌<◌, length, get_or};
ghost use Rattle.request_table.specs.Records.{list_of, records_of, no_record, writes_of};
ghost use Rattle.holds.specs.Holds.{clash_pair, clash_records, clash_slot};

use context::Record;
use request_table::Records;
use requests::Request;
use slots::{Slot, Status};

// Whether a running request holds this record against one that writes it or not.
fn clashes(running: Request, writes: bool, rec: Record) -> bool
    ensures { result ≡ clash_pair running writes rec }
{
    if !record_lists::is_one_of(record_lists::records_of(running), rec) {
        return false;
    }
    if request_kinds::writes(running) {
        return true;
    }
    writes
}

// The same of a record by its number among some.
pub fn clashes_at(running: Request, writes: bool, records: Records, j: usize) -> bool
    requires { j < length (list_of records) }
    ensures { result ≡ clash_pair running writes (get_or (list_of records) j no_record) }
{
    clashes(running, writes, record_lists::nth(records, j))
}

// Whether a running request holds a record against another request.
fn requests_clash(running: Request, request: Request) -> bool
    ensures { result ≡ clash_records running (writes_of request) (records_of request) }
{
    let records = record_lists::records_of(request);
    let writes = request_kinds::writes(request);
    let count = record_lists::count(records);
    for j in 0..count {
        if clashes_at(running, writes, records, j) {
            return true;
        }
    }
    false
}

// Whether the request of one slot holds a record against another request.
pub fn slot_holds(slot: Slot, request: Request) -> bool
    ensures { result ≡ clash_slot (writes_of request) (records_of request) slot }
{
    let status = slot.status;
    match status {
        Status::Free => false,
        Status::Running(_, running) => requests_clash(running, request),
        Status::Finished(_, _) => false,
    }
}
