// The first row of the table of refusals, of a row of eight slots: the lengths of room and store.
#![tactic(auto)]

ghost use Rattle.std.specs.Prelude.{◌≡◌};
ghost use Rattle.lengths.specs.Lengths.{lengths_wrong};

use burst_table::ROOM;
use possible::Hca;

// Whether the room is too short or, while open, the store has another length than INIT_HCA was lent.
pub fn lengths_wrong(hca: Hca, store: usize, room: usize) -> bool
    ensures { result ≡ lengths_wrong hca store room }
{
    if room < ROOM {
        return true;
    }
    if !hca.open {
        return false;
    }
    store != hca.store_len
}
