// The submission of a command, with the row of slots by value. What it promises here is its link in a chain of calls: the
// equation with the rules that its own crate promises, and nothing less would give it. So all that is
// proved of chains (the crate `chains`: demands 2 and 3) is proved of it.
#![tactic(auto)]

ghost use Rattle.rules.specs.World.{world};
ghost use Rattle.rules.specs.Calls as calls;
ghost use Rattle.handed_back.specs.Handed.{submit_handed};
ghost use Rattle.chains.specs.Links.{Link};

use handed_back::Submitted;
use possible::Hca;
use slots::Slot;

// Submits a command: its 28 bytes, and its mailbox.
pub fn submit_command(
    hca: Hca,
    row: [Slot; 8],
    store: &mut [u8],
    room: &mut [u8],
    bytes: &[u8],
    mail: &[u8],
) -> Submitted
    ensures { Link (world hca row store.old room.old)
        (calls.command bytes.now mail.now) (calls.submitted result.answer)
        (submit_handed row store.new room.new result).world }
{
    device_submit::submit_command(hca, row, store, room, bytes, mail)
}
