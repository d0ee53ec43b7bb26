// Reset, with the row of slots by value. What it promises here is its link in a chain of calls: the
// equation with the rules that its own crate promises, and nothing less would give it. So all that is
// proved of chains (the crate `chains`: demands 2 and 3) is proved of it.
#![tactic(auto)]

ghost use Rattle.rules.specs.World.{world};
ghost use Rattle.rules.specs.Calls as calls;
ghost use Rattle.handed_back.specs.Handed.{reset_handed};
ghost use Rattle.chains.specs.Links.{Link};

use handed_back::WasReset;
use possible::Hca;
use slots::Slot;

// Empties all slots and closes.
pub fn reset(hca: Hca, row: [Slot; 8], store: &[u8], room: &[u8]) -> WasReset
    ensures { Link (world hca row store.now room.now)
        calls.resetting (calls.reset_done result.answer)
        (reset_handed store.now room.now result).world }
{
    device_reset::reset(hca, row, store, room)
}
