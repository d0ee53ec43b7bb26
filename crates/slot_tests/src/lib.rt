// What a slot has: a request, or a command, running or finished.
#![tactic(auto)]

ghost use Rattle.std.specs.Prelude.{◌≡◌};
ghost use Rattle.slots.specs.Slots.{is_occupied, has_command};

use slots::{Slot, Status};

// Whether a slot has a request, running or finished.
pub fn is_occupied(slot: Slot) -> bool
    ensures { result ≡ is_occupied slot }
{
    let status = slot.status;
    match status {
        Status::Free => false,
        Status::Running(_, _) => true,
        Status::Finished(_, _) => true,
    }
}

// Whether a slot has an uncollected command, running or finished.
pub fn has_command(slot: Slot) -> bool
    ensures { result ≡ has_command slot }
{
    let status = slot.status;
    match status {
        Status::Free => false,
        Status::Running(_, request) => request_kinds::is_command(request),
        Status::Finished(_, request) => request_kinds::is_command(request),
    }
}
