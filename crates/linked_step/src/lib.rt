// A step, with the row of slots by value. What it promises here is its link in a chain of calls: the
// equation with the rules that its own crate promises, and nothing less would give it. So all that is
// proved of chains (the crate `chains`: demands 2 and 3) is proved of it.
#![tactic(auto)]

ghost use Rattle.rules.specs.World.{world};
ghost use Rattle.rules.specs.Calls as calls;
ghost use Rattle.handed_back.specs.Handed.{step_handed};
ghost use Rattle.chains.specs.Links.{Link};

use handed_back::HandedBack;
use possible::Hca;
use slots::Slot;

// One burst of the request in slot k.
pub fn step(hca: Hca, row: [Slot; 8], store: &mut [u8], room: &mut [u8], k: usize) -> HandedBack<u8>
    ensures { Link (world hca row store.old room.old)
        (calls.step k) (calls.stepped result.answer)
        (step_handed hca row store.new room.new result).world }
{
    device_step::step(hca, row, store, room, k)
}
