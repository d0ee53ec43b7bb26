// A step, with the row of slots by value.
#![tactic(auto)]

ghost use Rattle.std.specs.Prelude.{◌≡◌};
ghost use Rattle.handed_back.specs.Handed.{step_handed, step_refusal};
ghost use Rattle.rules.specs.World.{world};
ghost use Rattle.rules.specs.Steps.{step_on, step_of};
ghost use Rattle.moving.specs.Steps.{LookedUp};

use handed_back::{HandedBack, refused};
use possible::Hca;
use rules::Refusal;
use slots::{Slot, Status};

// Every burst comes here. So the slot is looked up once and handed on; the row is only for refusals.
fn step_slot(
    hca: Hca,
    row: [Slot; 8],
    store: &mut [u8],
    room: &mut [u8],
    k: usize,
    slot: Slot,
) -> HandedBack<u8>
    requires { LookedUp (world hca row store.old room.old) k slot }
    ensures { step_handed hca row store.new room.new result
        ≡ step_on (world hca row store.old room.old) k slot.status }
{
    let status = slot.status;
    let Status::Running(m, request) = status else {
        return refused(row, Refusal::NoRequest);
    };
    moving::move_burst(hca, store, room, k, request, m);
    let next = slot.advance();
    let after = next.slot;
    HandedBack {
        answer: Ok(next.left),
        at: k,
        slot: after,
    }
}

// One burst of the request in slot k.
pub fn step(hca: Hca, row: [Slot; 8], store: &mut [u8], room: &mut [u8], k: usize) -> HandedBack<u8>
    ensures { step_handed hca row store.new room.new result
        ≡ step_of (world hca row store.old room.old) k }
{
    if lengths::lengths_wrong(hca, store.len(), room.len()) {
        return refused(row, Refusal::BadLength);
    }
    if state_checks::is_impossible(hca, row) {
        return refused(row, Refusal::Impossible);
    }
    step_slot(hca, row, store, room, k, row_slots::slot_at(row, k))
}
