// What the C interface's operations change in its device of 288 bytes beside a whole slot: a slot's
// status and bursts moved, and the header.
#![tactic(auto)]

ghost use Rattle.std.specs.Prelude.{◌≡◌, ◌/◌, ◌%◌, ◌^◌, ◌<◌, length};
ghost use Rattle.device_bytes.specs.Encoding.{status_code, moved_in, header_bytes, put_moved, put_header};

use context::Logs;
use possible::Hca;
use slots::{Slot, Status};

fn status_code(status: Status) -> u8
    ensures { result ≡ status_code status }
{
    match status {
        Status::Free => 0,
        Status::Running(_, _) => 1,
        Status::Finished(_, _) => 2,
    }
}

fn moved_in(status: Status) -> u8
    ensures { result ≡ moved_in status }
{
    match status {
        Status::Free => 0,
        Status::Running(moved, _) => moved,
        Status::Finished(moved, _) => moved,
    }
}

// Writes what a step changes of slot `k`.
pub fn write_moved(dev: &mut [u8], k: usize, slot: Slot)
    requires { (k < 8) × (length dev.old ≡ 288) }
    ensures { dev.new ≡ put_moved k slot dev.old }
{
    let at = 32 + k * 32;
    let status = slot.status;
    dev[at] = status_code(status);
    dev[at + 2] = moved_in(status);
}

// The two words of the store's length: each fits, so that `as` loses nothing.
fn low_of(v: usize) -> u32
    ensures { result ≡ v % 2 ^ 32 }
{
    (v % 0x1_0000_0000) as u32
}

fn high_of(v: usize) -> u32
    ensures { result ≡ v / 2 ^ 32 }
{
    (v / 0x1_0000_0000) as u32
}

fn header_bytes(opened: u8, logs: Logs, low: u32, high: u32) -> [u8; 32]
    ensures { result ≡ header_bytes opened logs low high }
{
    let mut h = [0; 32];
    h[0] = opened;
    h[1] = logs.qps;
    h[2] = logs.cqs;
    h[3] = logs.eqs;
    h[4] = logs.mpts;
    words::write_le32(&mut h, 8, low);
    words::write_le32(&mut h, 12, high);
    h
}

// Writes the header.
pub fn write_header(dev: &mut [u8], hca: Hca)
    requires { length dev.old ≡ 288 }
    ensures { dev.new ≡ put_header hca dev.old }
{
    let logs = hca.logs;
    let bytes = header_bytes(
        u8::from(hca.open),
        logs,
        low_of(hca.store_len),
        high_of(hca.store_len),
    );
    words::copy_to(&bytes, dev, 0);
}
