// The submission of a command over a row of slots that the caller lends.
#![tactic(auto)]

ghost use Rattle.std.specs.Prelude.{◌≡◌};
ghost use Rattle.rules.specs.World.{world};
ghost use Rattle.rules.specs.Admission.{submitted};
ghost use Rattle.rules.specs.Commands.{submit_command};

use lent_answers::Reply;
use lent_rows::{load, put};
use possible::Hca;
use rules::{Refusal, Submission};
use slots::Slot;

// Submits a command: the bytes of the HCR, and the input mailbox.
pub fn submit_command(
    hca: Hca,
    row: &mut [Slot],
    store: &mut [u8],
    room: &mut [u8],
    bytes: &[u8],
    mail: &[u8],
) -> Reply<Submission>
    ensures { submitted result.answer (world result.hca row.new store.new room.new)
        ≡ submit_command (world hca row.old store.old room.old)
        bytes.now mail.now }
{
    if row.len() != 8 {
        return Reply {
            answer: Err(Refusal::BadLength),
            hca,
        };
    }
    let taken = load(row);
    let done = device_submit::submit_command(hca, taken, store, room, bytes, mail);
    put(row, done.at, done.slot);
    Reply {
        answer: done.answer,
        hca: done.hca,
    }
}
