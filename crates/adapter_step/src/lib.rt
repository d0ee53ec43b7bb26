// A step over a row of slots that the caller lends.
#![tactic(auto)]

ghost use Rattle.std.specs.Prelude.{◌≡◌};
ghost use Rattle.rules.specs.World.{world};
ghost use Rattle.rules.specs.Steps.{stepped, step_of};

use lent_rows::{load, put};
use possible::Hca;
use rules::Refusal;
use slots::Slot;

// One burst of the request in slot `k`.
pub fn step(
    hca: Hca,
    row: &mut [Slot],
    store: &mut [u8],
    room: &mut [u8],
    k: usize,
) -> Result<u8, Refusal>
    ensures { stepped result (world hca row.new store.new room.new)
        ≡ step_of (world hca row.old store.old room.old) k }
{
    if row.len() != 8 {
        return Err(Refusal::BadLength);
    }
    let taken = load(row);
    let done = device_step::step(hca, taken, store, room, k);
    put(row, done.at, done.slot);
    done.answer
}
