// A collection, with the row of slots by value. What it promises here is its link in a chain of calls: the
// equation with the rules that its own crate promises, and nothing less would give it. So all that is
// proved of chains (the crate `chains`: demands 2 and 3) is proved of it.
#![tactic(auto)]

ghost use Rattle.rules.specs.World.{world};
ghost use Rattle.rules.specs.Calls as calls;
ghost use Rattle.handed_back.specs.Handed.{collect_handed};
ghost use Rattle.chains.specs.Links.{Link};

use handed_back::HandedBack;
use possible::Hca;
use slots::Slot;

// Frees slot k, which is finished, and writes its request's answer to the front of `out`.
pub fn collect(
    hca: Hca,
    row: [Slot; 8],
    store: &[u8],
    room: &[u8],
    k: usize,
    out: &mut [u8],
) -> HandedBack<usize>
    ensures { Link (world hca row store.now room.now)
        (calls.collection k out.old) (calls.collected result.answer out.new)
        (collect_handed hca row store.now room.now out.new result).world }
{
    device_collect::collect(hca, row, store, room, k, out)
}
