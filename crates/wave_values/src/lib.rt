// What waves show of a slot: eight numbers, one for each of its signals; and how many holds it has.
#![tactic(auto)]

ghost use Rattle.std.specs.Prelude.{◌≡◌, length};
ghost use Rattle.request_table.specs.Records.{records_of};
ghost use Rattle.wave_values.specs.Values.{request_code, kind_shown, cq_shown, eq_shown};
ghost use Rattle.wave_values.specs.Values.{occupied_values, free_values, slot_values, records_held, held_by};

use context::Record;
use requests::{EngineRequest, Request};
use slots::{Slot, Status};

// A signal that has no value now.
pub const ABSENT: u64 = 0x1_0000_0000;

// The op of a command, or 256 more than the number of an engine request.
fn request_code(request: Request) -> u64
    ensures { result ≡ request_code request }
{
    match request {
        Request::Command(command) => u64::from(request_codes::command_op(command)),
        Request::Engine(engine) => 256 + u64::from(request_codes::engine_number(engine)),
    }
}

// The kind of the record that the request's index names.
fn kind_shown(request: Request) -> u64
    ensures { result ≡ kind_shown request }
{
    match request_record::record_of(request) {
        Record::Qp(_) => 1,
        Record::Cq(_) => 2,
        Record::Eq(_) => 3,
        Record::Mpt(_) => 4,
    }
}

// The completion queue that a joined read has.
fn cq_shown(request: Request) -> u64
    ensures { result ≡ cq_shown request }
{
    match request {
        Request::Engine(EngineRequest::ReadJoined(_, c, _)) => u64::from(c.0),
        _ => ABSENT,
    }
}

// The event queue that a joined read has.
fn eq_shown(request: Request) -> u64
    ensures { result ≡ eq_shown request }
{
    match request {
        Request::Engine(EngineRequest::ReadJoined(_, _, e)) => u64::from(e.0),
        _ => ABSENT,
    }
}

fn occupied(code: u64, request: Request, moved: u8, left: u8) -> [u64; 8]
    ensures { result ≡ occupied_values code request moved left }
{
    [
        code,
        request_code(request),
        kind_shown(request),
        u64::from(request_codes::index_of(request)),
        cq_shown(request),
        eq_shown(request),
        u64::from(moved),
        u64::from(left),
    ]
}

fn free() -> [u64; 8]
    ensures { result ≡ free_values }
{
    [0, 0, 0, ABSENT, ABSENT, ABSENT, ABSENT, ABSENT]
}

// The values of a slot's signals: status, request, kind, number, the joined read's queues, bursts moved, bursts left.
pub fn slot_values(slot: Slot) -> [u64; 8]
    ensures { result ≡ slot_values slot }
{
    let left = slot.bursts_left();
    let status = slot.status;
    match status {
        Status::Free => free(),
        Status::Running(moved, request) => occupied(1, request, moved, left),
        Status::Finished(moved, request) => occupied(2, request, moved, left),
    }
}

fn wide_count(request: Request) -> u64
    ensures { result ≡ length (records_of request) }
{
    record_lists::count(record_lists::records_of(request)) as u64
}

fn records_held(request: Request, writes: bool) -> u64
    ensures { result ≡ records_held request writes }
{
    if request_kinds::writes(request) == writes {
        return wide_count(request);
    }
    0
}

// How many records a slot's request holds, as a writer or as a reader.
pub fn held(slot: Slot, writes: bool) -> u64
    ensures { result ≡ held_by slot writes }
{
    let status = slot.status;
    match status {
        Status::Free => 0,
        Status::Running(_, request) => records_held(request, writes),
        Status::Finished(_, _) => 0,
    }
}
