// A slot by value: the request in it, and how far it has moved.
#![tactic(auto)]

ghost use Rattle.std.specs.Prelude.{◌≡◌, ◌-◌};
ghost use Rattle.burst_table.specs.Bursts.{total_of};
ghost use Rattle.slots.specs.Slots.{accepted, freed, advanced_status, advanced_slot, left_status, left_of};

use requests::Request;

// A slot is free, running with its request, or finished with its request; the number is that of the
// bursts moved. The bytes of the request's mailbox and answer stay in the room.
#[derive(Clone, Copy)]
pub enum Status {
    Free,
    Running(u8, Request),
    Finished(u8, Request),
}

#[derive(Clone, Copy)]
pub struct Slot {
    pub status: Status,
}

// What a step makes of its slot: the slot handed back, and the bursts that its request has still to
// move.
#[derive(Drop)]
pub struct Advanced {
    pub slot: Slot,
    pub left: u8,
}

// The bursts that a request with this many moved has still to move.
fn left(request: Request, moved: u8) -> u8
    ensures { result ≡ total_of request - moved }
{
    let total = burst_table::total(request);
    if total < moved {
        return 0;
    }
    total - moved
}

impl Status {
    // One burst more; the last one finishes the request.
    pub fn advance(self) -> Status
        ensures { result ≡ advanced_status self }
    {
        match self {
            Status::Free => self,
            Status::Running(moved, request) => {
                let total = burst_table::total(request);
                if left(request, moved) > 1 {
                    return Status::Running(moved + 1, request);
                }
                Status::Finished(total, request)
            }
            Status::Finished(_, _) => self,
        }
    }

    // The burst table's total less the bursts moved.
    pub fn bursts_left(self) -> u8
        ensures { result ≡ left_status self }
    {
        match self {
            Status::Free => 0,
            Status::Running(moved, request) => left(request, moved),
            Status::Finished(moved, request) => left(request, moved),
        }
    }
}

impl Slot {
    // A request that is accepted runs, with no burst moved.
    pub fn accept(self, request: Request) -> Slot
        ensures { result ≡ accepted self request }
    {
        Slot {
            status: Status::Running(0, request),
        }
    }

    // One burst more, with the bursts then left.
    pub fn advance(self) -> Advanced
        ensures { result ≡ advanced_slot self }
    {
        let status = self.status;
        let next = status.advance();
        let left = next.bursts_left();
        Advanced {
            slot: Slot { status: next },
            left: left,
        }
    }

    // A collected slot is free.
    pub fn free(self) -> Slot
        ensures { result ≡ freed self }
    {
        Slot {
            status: Status::Free,
        }
    }

    // The bursts that the slot's request has still to move.
    pub fn bursts_left(self) -> u8
        ensures { result ≡ left_of self }
    {
        let status = self.status;
        status.bursts_left()
    }
}
