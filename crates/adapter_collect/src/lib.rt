// A collection over a row of slots that the caller lends.
#![tactic(auto)]

ghost use Rattle.std.specs.Prelude.{◌≡◌};
ghost use Rattle.rules.specs.World.{world};
ghost use Rattle.rules.specs.Collections.{collected, collect_of};

use lent_rows::{load, put};
use possible::Hca;
use rules::Refusal;
use slots::Slot;

// Frees slot `k`, which is finished, and writes its request's answer to the front of `out`.
pub fn collect(
    hca: Hca,
    row: &mut [Slot],
    store: &[u8],
    room: &[u8],
    k: usize,
    out: &mut [u8],
) -> Result<usize, Refusal>
    ensures { collected result (world hca row.new store.now room.now) out.new
        ≡ collect_of (world hca row.old store.now room.now) k out.old }
{
    if row.len() != 8 {
        return Err(Refusal::BadLength);
    }
    let taken = load(row);
    let done = device_collect::collect(hca, taken, store, room, k, out);
    put(row, done.at, done.slot);
    done.answer
}
