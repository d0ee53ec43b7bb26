// A step, on the bytes that the C interface is lent.
#![tactic(auto)]

ghost use Rattle.std.specs.Prelude.{◌≡◌, ◌*◌, ◌-◌, ◌<◌, eqb, length};
ghost use Rattle.words.specs.Choice.{pick};
ghost use Rattle.records.specs.Calls.{qp_read, joined_read};
ghost use Rattle.rules.specs.World.{status_at};
ghost use Rattle.rules.specs.Steps.{step_on};
ghost use Rattle.device_bytes.specs.Decoding.{row_of};
ghost use Rattle.device_calls.specs.Calls.{world_of, left, step_left, step_call};
ghost use Rattle.exported_step.specs.Ready.{Ready};
ghost use Rattle.exported_step.specs.Whole.{runs, counted, Reading};

use context::{CqNumber, EqNumber, QpNumber};
use possible::Hca;
use slots::Status;

// A step of slot k of a device that passed the first tests. The slot is read once, and its status and
// bursts moved alone are written back.
fn step_slot(hca: Hca, dev: &mut [u8], store: &mut [u8], room: &mut [u8], k: usize) -> u32
    requires { Ready hca dev.old store.old room.old k }
    ensures { left result dev.new store.new room.new
        ≡ step_left dev.old k (step_on (world_of dev.old store.old room.old) k
        (status_at k (row_of dev.old))) }
{
    let slot = slot_readers::slot_at(dev, k);
    let status = slot.status;
    let Status::Running(m, request) = status else {
        return 0x84;
    };
    moving::move_burst(hca, store, room, k, request, m);
    let next = slot.advance();
    let after = next.slot;
    device_writers::write_moved(dev, k, after);
    256 * u32::from(next.left)
}

// Whether slot k runs the request of this kind and number, with the op_modifier 0.
fn runs(dev: &[u8], k: usize, kind: u8, number: u8) -> bool
    requires { (k < 8) × (length dev.now ≡ 288) }
    ensures { result ≡ runs kind number k dev.now }
{
    let at = 32 + k * 32;
    if dev[at] != 1 {
        return false;
    }
    if dev[at + 1] != kind {
        return false;
    }
    if dev[at + 3] != 0 {
        return false;
    }
    if dev[at + 4] != number {
        return false;
    }
    dev[at + 5] == 0
}

// The status with so many bursts left: the last burst finishes the request.
fn status_with(left: u8) -> u8
    ensures { result ≡ pick (eqb left 0) 2 1 }
{
    if left == 0 { 2 } else { 1 }
}

// Counts burst m of slot k, whose request has `total` bursts.
fn count_burst(dev: &mut [u8], k: usize, m: u8, total: u8) -> u32
    requires k_bound { (k < 8) × (length dev.old ≡ 288) }
    requires m_lt_total { m < total }
    ensures { (result ≡ 256 * (total - m - 1)) × (dev.new ≡ counted k m total dev.old) }
{
    let at = 32 + k * 32;
    let left = total - m - 1;
    dev[at] = status_with(left);
    dev[at + 2] = m + 1;
    256 * u32::from(left)
}

// A step of slot k, whose request reads all of queue pair n's record and has moved m bursts.
fn step_qp(
    hca: Hca,
    dev: &mut [u8],
    store: &[u8],
    room: &mut [u8],
    k: usize,
    m: u8,
    n: QpNumber,
) -> u32
    requires { Reading hca dev.old store.now room.old k m (qp_read n) }
    ensures { left result dev.new store.now room.new
        ≡ step_left dev.old k (step_on (world_of dev.old store.now room.old) k
        (status_at k (row_of dev.old))) }
{
    let logs = hca.logs;
    records::read_qp_burst(logs, store, room, k, n, m);
    count_burst(dev, k, m, 16)
}

// A step of slot k, whose request is a joined read and has moved m bursts.
fn step_joined(
    hca: Hca,
    dev: &mut [u8],
    store: &[u8],
    room: &mut [u8],
    k: usize,
    m: u8,
    n: QpNumber,
    c: CqNumber,
    e: EqNumber,
) -> u32
    requires { Reading hca dev.old store.now room.old k m (joined_read n c e) }
    ensures { left result dev.new store.now room.new
        ≡ step_left dev.old k (step_on (world_of dev.old store.now room.old) k
        (status_at k (row_of dev.old))) }
{
    let logs = hca.logs;
    records::read_joined_burst(logs, store, room, k, n, c, e, m);
    count_burst(dev, k, m, 24)
}

// A step of slot k. A request that reads whole records is stepped on the slot's bytes, and no slot is
// built: to write one and copy it on takes longer than the burst.
fn step_bytes(hca: Hca, dev: &mut [u8], store: &mut [u8], room: &mut [u8], k: usize) -> u32
    requires { Ready hca dev.old store.old room.old k }
    ensures { left result dev.new store.new room.new
        ≡ step_left dev.old k (step_on (world_of dev.old store.old room.old) k
        (status_at k (row_of dev.old))) }
{
    let at = 32 + k * 32;
    let m = dev[at + 2];
    let n = QpNumber(words::read_le32(dev, at + 8));
    if runs(dev, k, 1, 6) {
        return step_qp(hca, dev, store, room, k, m, n);
    }
    if runs(dev, k, 0, 0x22) {
        return step_qp(hca, dev, store, room, k, m, n);
    }
    if runs(dev, k, 1, 7) {
        let c = CqNumber(words::read_le32(dev, at + 12));
        let e = EqNumber(words::read_le32(dev, at + 16));
        return step_joined(hca, dev, store, room, k, m, n, c, e);
    }
    step_slot(hca, dev, store, room, k)
}

// One burst of the request in slot k.
pub fn step(dev: &mut [u8], store: &mut [u8], room: &mut [u8], k: usize) -> u32
    ensures { left result dev.new store.new room.new
        ≡ step_call dev.old store.old room.old k }
{
    let refused = device_tests::refusal(dev, store.len(), room.len());
    if refused != 0 {
        return refused;
    }
    if 7 < k {
        return 0x84;
    }
    step_bytes(device_readers::read_hca(dev), dev, store, room, k)
}
