// The two submissions, with the row of slots by value: decided, then applied.
#![tactic(auto)]

ghost use Rattle.std.specs.Prelude.{◌≡◌};
ghost use Rattle.rules.specs.World.{world};
ghost use Rattle.rules.specs.Commands.{submit_command};
ghost use Rattle.rules.specs.Engines.{submit_engine};
ghost use Rattle.handed_back.specs.Handed.{submit_handed};

use handed_back::Submitted;
use possible::Hca;
use slots::Slot;

// Submits an engine request, which has no mailbox.
pub fn submit_engine(
    hca: Hca,
    row: [Slot; 8],
    store: &mut [u8],
    room: &mut [u8],
    number: u32,
    index: u32,
    psn: u32,
    state: u8,
) -> Submitted
    ensures { submit_handed row store.new room.new result
        ≡ submit_engine (world hca row store.old room.old) number index psn state }
{
    let decision = deciding::decide_engine(hca, row, store, room, number, index, psn, state);
    applying::apply(hca, row, store, room, &[], decision)
}

// Submits a command: its 28 bytes, and its mailbox.
pub fn submit_command(
    hca: Hca,
    row: [Slot; 8],
    store: &mut [u8],
    room: &mut [u8],
    bytes: &[u8],
    mail: &[u8],
) -> Submitted
    ensures { submit_handed row store.new room.new result
        ≡ submit_command (world hca row store.old room.old) bytes.now mail.now }
{
    let decision = deciding_commands::decide_command(hca, row, store, room, bytes, mail);
    applying::apply(hca, row, store, room, mail, decision)
}
