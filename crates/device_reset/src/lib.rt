// Reset, with the row of slots by value.
#![tactic(auto)]

ghost use Rattle.std.specs.Prelude.{◌≡◌};
ghost use Rattle.handed_back.specs.Handed.{reset_handed};
ghost use Rattle.rules.specs.World.{world};
ghost use Rattle.rules.specs.Resets.{reset_of};

use burst_table::ROOM;
use handed_back::WasReset;
use possible::Hca;
use rules::Refusal;
use slots::Slot;

// Empties all slots and closes.
pub fn reset(hca: Hca, row: [Slot; 8], store: &[u8], room: &[u8]) -> WasReset
    ensures { reset_handed store.now room.now result
        ≡ reset_of (world hca row store.now room.now) }
{
    if room.len() < ROOM {
        return WasReset {
            answer: Err(Refusal::BadLength),
            hca: hca,
            row: row,
        };
    }
    let logs = hca.logs;
    let empty = rows::empty_row();
    WasReset {
        answer: Ok(()),
        hca: Hca {
            open: false,
            logs: logs,
            store_len: hca.store_len,
        },
        row: empty,
    }
}
