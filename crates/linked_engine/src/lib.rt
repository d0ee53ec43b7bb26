// The submission of an engine request, with the row of slots by value. What it promises here is its link in a chain of calls: the
// equation with the rules that its own crate promises, and nothing less would give it. So all that is
// proved of chains (the crate `chains`: demands 2 and 3) is proved of it.
#![tactic(auto)]

ghost use Rattle.rules.specs.World.{world};
ghost use Rattle.rules.specs.Calls as calls;
ghost use Rattle.handed_back.specs.Handed.{submit_handed};
ghost use Rattle.chains.specs.Links.{Link};

use handed_back::Submitted;
use possible::Hca;
use slots::Slot;

// Submits an engine request.
pub fn submit_engine(
    hca: Hca,
    row: [Slot; 8],
    store: &mut [u8],
    room: &mut [u8],
    number: u32,
    index: u32,
    psn: u32,
    state: u8,
) -> Submitted
    ensures { Link (world hca row store.old room.old)
        (calls.engine_request number index psn state) (calls.submitted result.answer)
        (submit_handed row store.new room.new result).world }
{
    device_submit::submit_engine(hca, row, store, room, number, index, psn, state)
}
