// Whether a slot that is handed in is impossible by itself.
#![tactic(auto)]

ghost use Rattle.std.specs.Prelude.{◌≡◌};
ghost use Rattle.slot_checks.specs.SlotChecks.{request_wrong, bursts_wrong, slot_wrong};

use context::Logs;
use slots::{Slot, Status};

// Whether the index or the PSN of the slot's request is wrong.
fn request_wrong(logs: Logs, status: Status) -> bool
    ensures { result ≡ request_wrong logs status }
{
    match status {
        Status::Free => false,
        Status::Running(_, request) => !request_numbers::numbers_hold(request, logs),
        Status::Finished(_, request) => !request_numbers::numbers_hold(request, logs),
    }
}

// Whether the slot's request should have finished, or has not moved its bursts.
fn bursts_wrong(status: Status) -> bool
    ensures { result ≡ bursts_wrong status }
{
    match status {
        Status::Free => false,
        Status::Running(moved, request) => !(moved < burst_table::total(request)),
        Status::Finished(moved, request) => moved != burst_table::total(request),
    }
}

pub fn slot_wrong(logs: Logs, slot: Slot) -> bool
    ensures { result ≡ slot_wrong logs slot }
{
    let status = slot.status;
    if request_wrong(logs, status) {
        return true;
    }
    bursts_wrong(status)
}
