// Whether the C interface's device, 288 bytes, is in an impossible state (01, Numbers returned, 0x87). Every exported call asks it, so
// it judges the bytes of each occupied slot where the scan meets it, without building the row.
#![tactic(auto)]

ghost use Rattle.std.specs.Prelude.{◌≡◌, ◌<◌, length};
ghost use Rattle.slots.specs.Slots.{is_occupied};
ghost use Rattle.rows.specs.Rows.{any_slot};
ghost use Rattle.possible.specs.Possible.{impossible};
ghost use Rattle.device_bytes.specs.Decoding.{slots_of, row_of};
ghost use Rattle.judging.specs.Judging.{judged_at, slots_impossible, open_device};

use context::Logs;
use possible::Hca;
use slot_judging::Judged;

// Slot k, which is occupied: None where it is wrong.
fn judge_at(logs: Logs, dev: &[u8], k: usize) -> Option<Judged>
    requires { (k < 8) × (length dev.now ≡ 288) }
    ensures { result ≡ judged_at logs k dev.now }
{
    let at = 32 + k * 32;
    let end = at + 32;
    slot_judging::judge(logs, &dev[at..end])
}

// Whether a slot of an open state is wrong by itself, or two do not go together: two commands, or holds that clash. A reader clashes
// with writers alone, so it is compared with the records that are written, a writer with all that is held.
fn slots_impossible(logs: Logs, dev: &[u8]) -> bool
    requires { length dev.now ≡ 288 }
    ensures { result ≡ slots_impossible logs (slots_of 8 dev.now) }
{
    let none = hold_codes::nothing();
    let mut holds = [none; 8];
    let mut written = [0u64; 8];
    let mut writers = 0;
    let mut seen = false;
    for i in 0..8 {
        if dev[32 + i * 32] == 0 {
            continue;
        }
        let Some(judged) = judge_at(logs, dev, i) else {
            return true;
        };
        if judged.command {
            if seen {
                return true;
            }
            seen = true;
        }
        let hold = judged.hold;
        if hold.written == 0 {
            for j in 0..writers {
                if hold_codes::has(hold, written[j]) {
                    return true;
                }
            }
            holds[i] = hold;
            continue;
        }
        for j in 0..i {
            if hold_codes::has(holds[j], hold.written) {
                return true;
            }
        }
        written[writers] = hold.written;
        writers += 1;
        holds[i] = hold;
    }
    false
}

// Whether a slot is occupied, which is known by its first byte.
fn any_occupied(dev: &[u8]) -> bool
    requires { length dev.now ≡ 288 }
    ensures { result ≡ any_slot is_occupied (slots_of 8 dev.now) }
{
    for k in 0..8 {
        if dev[32 + k * 32] != 0 {
            return true;
        }
    }
    false
}

// The state's tables are past their ranges or the store, or its slots are impossible.
fn open_impossible(hca: Hca, dev: &[u8]) -> bool
    requires { length dev.now ≡ 288 }
    ensures { result ≡ open_device hca dev.now }
{
    let logs = hca.logs;
    if !store_tables::fits_store(logs, hca.store_len) {
        return true;
    }
    slots_impossible(logs, dev)
}

// Whether the device's state is impossible.
pub fn device_impossible(hca: Hca, dev: &[u8]) -> bool
    requires { length dev.now ≡ 288 }
    ensures { result ≡ impossible hca (row_of dev.now) }
{
    if 1 < dev[0] {
        return true;
    }
    if hca.open {
        return open_impossible(hca, dev);
    }
    any_occupied(dev)
}
