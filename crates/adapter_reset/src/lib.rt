// A reset over a row of slots that the caller lends.
#![tactic(auto)]

ghost use Rattle.std.specs.Prelude.{◌≡◌};
ghost use Rattle.rules.specs.World.{world};
ghost use Rattle.rules.specs.Resets.{resetted, reset_of};

use lent_answers::Reply;
use lent_rows::{load, save};
use possible::Hca;
use rules::Refusal;
use slots::Slot;

// Empties all slots and closes.
pub fn reset(hca: Hca, row: &mut [Slot], store: &[u8], room: &[u8]) -> Reply<()>
    ensures { resetted result.answer (world result.hca row.new store.now room.now)
        ≡ reset_of (world hca row.old store.now room.now) }
{
    if row.len() != 8 {
        return Reply {
            answer: Err(Refusal::BadLength),
            hca,
        };
    }
    let taken = load(row);
    let done = device_reset::reset(hca, taken, store, room);
    save(row, done.row);
    Reply {
        answer: done.answer,
        hca: done.hca,
    }
}
