// A collection, on the bytes that the C interface is lent.
#![tactic(auto)]

ghost use Rattle.std.specs.Prelude.{◌≡◌, List, ℕ, ◌≤◌};
ghost use Rattle.rules.specs.World.{status_at};
ghost use Rattle.rules.specs.Collections.{collect_on};
ghost use Rattle.device_bytes.specs.Decoding.{row_of};
ghost use Rattle.device_calls.specs.Calls.{world_of, taken, collect_left, collect_call};
ghost use Rattle.exported_collect.specs.Ready.{Ready};

use slots::Status;

// The longest answer is a joined read's, 384 bytes.
fn narrow(n: usize) -> u32
    requires { n ≤ 384 }
    ensures { (result ≡ n) × (result ≤ 384) }
{
    n as u32
}

// A collection of slot k of a device that passed the first tests. The slot is read once; the store
// is not needed any more.
fn collect_slot(dev: &mut [u8], room: &[u8], k: usize, out: &mut [u8]) -> u32
    requires { Ready dev.old room.now k }
    ensures { (store : List ℕ) → taken result dev.new out.new
        ≡ collect_left dev.old k (collect_on (world_of dev.old store room.now) k out.old
        (status_at k (row_of dev.old))) }
{
    let slot = slot_readers::slot_at(dev, k);
    let status = slot.status;
    match status {
        Status::Free => 0x84,
        Status::Running(_, _) => 0x86,
        Status::Finished(_, request) => {
            let size = answers::answer_size(request);
            if out.len() < size {
                return 0x83;
            }
            answering::write_answer(room, k, request, out);
            let freed = slot.free();
            slot_writers::write_slot(dev, k, freed);
            256 * narrow(size)
        }
    }
}

// Frees slot k, which is finished, and writes its request's answer to the front of `out`.
pub fn collect(dev: &mut [u8], store: &[u8], room: &[u8], k: usize, out: &mut [u8]) -> u32
    ensures { taken result dev.new out.new
        ≡ collect_call dev.old store.now room.now k out.old }
{
    let refused = device_tests::refusal(dev, store.len(), room.len());
    if refused != 0 {
        return refused;
    }
    if 7 < k {
        return 0x84;
    }
    collect_slot(dev, room, k, out)
}
