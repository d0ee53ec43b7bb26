// Collecting a slot, with the row of slots by value.
#![tactic(auto)]

ghost use Rattle.std.specs.Prelude.{◌≡◌, List, ℕ};
ghost use Rattle.possible.specs.declared.Hca.{Hca};
ghost use Rattle.handed_back.specs.Handed.{collect_handed, collect_refusal};
ghost use Rattle.rules.specs.World.{world};
ghost use Rattle.rules.specs.Collections.{collect_on, collect_of};
ghost use Rattle.device_collect.specs.Collections.{LookedUp};

use handed_back::{HandedBack, refused};
use possible::Hca;
use rules::Refusal;
use slots::{Slot, Status};

// Collects slot k, which was looked up.
fn collect_slot(
    row: [Slot; 8],
    room: &[u8],
    k: usize,
    slot: Slot,
    out: &mut [u8],
) -> HandedBack<usize>
    requires { LookedUp row room.now k slot }
    ensures { (h : Hca) (store : List ℕ) → collect_handed h row store room.now out.new result
        ≡ collect_on (world h row store room.now) k out.old slot.status }
{
    let status = slot.status;
    match status {
        Status::Free => refused(row, Refusal::NoRequest),
        Status::Running(_, _) => refused(row, Refusal::StillRunning),
        Status::Finished(_, request) => {
            let size = answers::answer_size(request);
            if out.len() < size {
                return refused(row, Refusal::ShortBuffer);
            }
            answering::write_answer(room, k, request, out);
            let freed = slot.free();
            HandedBack {
                answer: Ok(size),
                at: k,
                slot: freed,
            }
        }
    }
}

// Frees slot k, which is finished, and writes its request's answer to the front of `out`.
pub fn collect(
    hca: Hca,
    row: [Slot; 8],
    store: &[u8],
    room: &[u8],
    k: usize,
    out: &mut [u8],
) -> HandedBack<usize>
    ensures { collect_handed hca row store.now room.now out.new result
        ≡ collect_of (world hca row store.now room.now) k out.old }
{
    if lengths::lengths_wrong(hca, store.len(), room.len()) {
        return refused(row, Refusal::BadLength);
    }
    if state_checks::is_impossible(hca, row) {
        return refused(row, Refusal::Impossible);
    }
    collect_slot(row, room, k, row_slots::slot_at(row, k), out)
}
