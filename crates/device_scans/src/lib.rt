// What a submission's decision asks of the row, from the device's bytes: the lowest free slot, and whether a record is held. A slot is
// decoded only if it may hold the record.
#![tactic(auto)]

ghost use Rattle.std.specs.Prelude.{◌≡◌, ◌∷◌, [], ◌<◌, length};
ghost use Rattle.rows.specs.Rows.{any_slot, lowest_free};
ghost use Rattle.holds.specs.Holds.{clash_slot};
ghost use Rattle.device_bytes.specs.Decoding.{row_of};
ghost use Rattle.device_scans.specs.Passed.{may_hold};
ghost use Rattle.device_scans.specs.Scans.{HasRow};

use context::Record;
use request_table::Records;
use slots::{Slot, Status};

// The slot that submission takes. A free slot is known by its first byte.
pub fn lowest_free(dev: &[u8]) -> Option<usize>
    requires { HasRow dev.now }
    ensures { result ≡ lowest_free 0 (row_of dev.now) }
{
    for k in 0..8 {
        if dev[32 + k * 32] == 0 {
            return Some(k);
        }
    }
    None
}

// Whether slot `k` runs, and has this index or may be a joined read, which also holds records that its index does not name.
fn may_hold(dev: &[u8], k: usize, number: u32) -> bool
    requires { (k < 8) × (length dev.now ≡ 288) }
    ensures { result ≡ may_hold number k dev.now }
{
    let at = 32 + k * 32;
    if dev[at] != 1 {
        return false;
    }
    if words::read_le32(dev, at + 8) == number {
        return true;
    }
    dev[at + 4] == 7
}

// Whether the request of one slot holds this record against one that writes it or not.
fn slot_holds(slot: Slot, rec: Record, writes: bool) -> bool
    ensures { result ≡ clash_slot writes (rec ∷ []) slot }
{
    let status = slot.status;
    match status {
        Status::Free => false,
        Status::Running(_, running) => {
            slot_clashes::clashes_at(running, writes, Records::One(rec), 0)
        }
        Status::Finished(_, _) => false,
    }
}

// Whether a running request of the row holds this record against one that writes it or not.
pub fn held(dev: &[u8], rec: Record, writes: bool) -> bool
    requires { HasRow dev.now }
    ensures { result ≡ any_slot (clash_slot writes (rec ∷ [])) (row_of dev.now) }
{
    let number = record_kinds::number_of(rec);
    for i in 0..8 {
        if !may_hold(dev, i, number) {
            continue;
        }
        if slot_holds(slot_readers::slot_at(dev, i), rec, writes) {
            return true;
        }
    }
    false
}
