// The submission of an engine request over a row of slots that the caller lends.
#![tactic(auto)]

ghost use Rattle.std.specs.Prelude.{◌≡◌};
ghost use Rattle.rules.specs.World.{world};
ghost use Rattle.rules.specs.Admission.{submitted};
ghost use Rattle.rules.specs.Engines.{submit_engine};

use lent_answers::Reply;
use lent_rows::{load, put};
use possible::Hca;
use rules::{Refusal, Submission};
use slots::Slot;

// Submits an engine request: its number, the queue pair's index, and what it carries.
pub fn submit_engine(
    hca: Hca,
    row: &mut [Slot],
    store: &mut [u8],
    room: &mut [u8],
    number: u32,
    index: u32,
    psn: u32,
    state: u8,
) -> Reply<Submission>
    ensures { submitted result.answer (world result.hca row.new store.new room.new)
        ≡ submit_engine (world hca row.old store.old room.old) number index psn state }
{
    if row.len() != 8 {
        return Reply {
            answer: Err(Refusal::BadLength),
            hca,
        };
    }
    let taken = load(row);
    let done = device_submit::submit_engine(hca, taken, store, room, number, index, psn, state);
    put(row, done.at, done.slot);
    Reply {
        answer: done.answer,
        hca: done.hca,
    }
}
