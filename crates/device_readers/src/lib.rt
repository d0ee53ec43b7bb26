// The state and the row from the C interface's device, 288 bytes.
#![tactic(auto)]

ghost use Rattle.std.specs.Prelude.{◌≡◌, ◌^◌, ◌<◌, length, replicate};
ghost use Rattle.slots.specs.Slots.{slot};
ghost use Rattle.device_bytes.specs.Decoding.{broken, row_of, hca_of};

use context::Logs;
use possible::Hca;
use slots::Slot;

fn broken_row() -> [Slot; 8]
    ensures { result ≡ replicate 8 (slot broken) }
{
    let s = Slot {
        status: slot_readers::broken_status(),
    };
    [s; 8]
}

// The row. A free slot is known by its first byte, and a device that is neither open nor closed has
// no possible row.
pub fn read_row(dev: &[u8]) -> [Slot; 8]
    requires { length dev.now ≡ 288 }
    ensures { result ≡ row_of dev.now }
{
    if 1 < dev[0] {
        return broken_row();
    }
    let mut row = rows::empty_row();
    for k in 0..8 {
        if dev[32 + k * 32] == 0 {
            continue;
        }
        row[k] = slot_readers::slot_at(dev, k);
    }
    row
}

// `usize` has no `From<u32>`.
fn wide64(x: u32) -> usize
    ensures { (result ≡ x) × (result < 2 ^ 32) }
{
    x as usize
}

// The state.
pub fn read_hca(dev: &[u8]) -> Hca
    requires { length dev.now ≡ 288 }
    ensures { result ≡ hca_of dev.now }
{
    let low = wide64(words::read_le32(dev, 8));
    let high = wide64(words::read_le32(dev, 12));
    Hca {
        open: dev[0] == 1,
        logs: Logs {
            qps: dev[1],
            cqs: dev[2],
            eqs: dev[3],
            mpts: dev[4],
        },
        store_len: low + high * 0x1_0000_0000,
    }
}
