// The lent memory: one burst is written or read, a record is judged, a name in one is read, and all
// records are made zero. No other crate looks for a record in it. The callers have tested what is asked.
#![tactic(auto)]

ghost use Rattle.std.specs.Prelude.{◌≡◌, true, ◌+◌, ◌≤◌, ◌<◌, length};
ghost use Rattle.context.specs.Layout.{ranges_hold, is_record, record_at};
ghost use Rattle.context.specs.declared.Record.TheVariants.{Qp, Cq};
ghost use Rattle.request_table.specs.Records.{list_of, record_of, writes_of};
ghost use Rattle.request_table.specs.declared.Records.TheVariants.{Three};
ghost use Rattle.burst_table.specs.Sizes.{burst_size, slot_count, slot_start};
ghost use Rattle.burst_table.specs.Bursts.{joined_size, offset_of};
ghost use Rattle.checks.specs.Fields.{cq_named, eq_named};
ghost use Rattle.bursts.specs.Moves.{copy_at};
ghost use Rattle.bursts.specs.Room.{front_of, room_copied};
ghost use Rattle.records.specs.Memory.{memory, record_in, AllRecords, Fits, place_in, written, read_out};
ghost use Rattle.records.specs.Memory.{permission_in, zeroed};
ghost use Rattle.records.specs.Calls.{Stored, Moving, qp_read, joined_read};

use burst_table::BURST;
use checks::Denial;
use context::{CqNumber, EqNumber, Logs, QpNumber, Record};
use request_table::Records;
use requests::Request;

// Where a request's record starts in the memory.
fn record_place(logs: Logs, request: Request) -> usize
    requires logs_value { ranges_hold logs ≡ true }
    requires request_value { is_record logs (record_of request) ≡ true }
    ensures { result ≡ record_at logs (record_of request) }
{
    store_tables::record_at(logs, request_record::record_of(request))
}

// Moves burst m of slot k's request, a write: that burst of the record is changed. The mailbox bytes
// stand at the front of the slot's part of the room.
pub fn write_burst(logs: Logs, store: &mut [u8], room: &[u8], k: usize, request: Request, m: u8)
    requires request_value { writes_of request ≡ true }
    requires moving { Moving logs store.old room.now k request m }
    ensures { memory store.new
        ≡ written logs (memory store.old) request (front_of k request room.now) m }
{
    let first = burst_table::offset(request, m);
    let at = record_place(logs, request) + first;
    let base = burst_table::slot_start(k);
    bursts::write_at(store, at, room, base, request, first);
}

// Where byte `first` of the three records of a joined read, one behind the other, stands in the
// memory.
fn three_place(logs: Logs, n: QpNumber, c: CqNumber, e: EqNumber, first: usize) -> usize
    requires logs_value { ranges_hold logs ≡ true }
    requires all_records { AllRecords logs (list_of (Three n c e)) }
    requires first_bound { first < 384 }
    ensures { result ≡ place_in logs (list_of (Three n c e)) first }
{
    if first < 256 {
        return store_tables::record_at(logs, Record::Qp(n)) + first;
    }
    if first < 320 {
        return store_tables::record_at(logs, Record::Cq(c)) + (first - 256);
    }
    store_tables::record_at(logs, Record::Eq(e)) + (first - 320)
}

// Where the burst that starts at `first` of some records, one behind the other, stands in the memory.
fn burst_place(logs: Logs, records: Records, first: usize) -> usize
    requires logs_value { ranges_hold logs ≡ true }
    requires all_records { AllRecords logs (list_of records) }
    requires burst_size_bound { first + burst_size ≤ joined_size (list_of records) }
    ensures { result ≡ place_in logs (list_of records) first }
{
    match records {
        Records::One(rec) => store_tables::record_at(logs, rec) + first,
        Records::Three(n, c, e) => three_place(logs, n, c, e, first),
    }
}

// Copies the burst at `from` of the memory to `first` of slot k's part of the room.
fn copy_burst(store: &[u8], from: usize, room: &mut [u8], k: usize, first: usize)
    requires burst_size_in_bounds { from + burst_size ≤ length store.now }
    requires k_lt_slot_count { k < slot_count }
    requires burst_size_in_bounds_2 { slot_start k + first + burst_size ≤ length room.old }
    ensures { room.new ≡ copy_at from store.now (slot_start k + first) room.old }
{
    let to = burst_table::slot_start(k) + first;
    bursts::read_at(store, from, room, to);
}

// Moves burst m of slot k's request, a read: that burst of its records is copied to its offset in the
// slot's part of the room.
pub fn read_burst(logs: Logs, store: &[u8], room: &mut [u8], k: usize, request: Request, m: u8)
    requires { Moving logs store.now room.old k request m }
    ensures { room.new
        ≡ room_copied k (offset_of request m) (read_out logs (memory store.now) request m) room.old }
{
    let first = burst_table::offset(request, m);
    let from = burst_place(logs, record_lists::records_of(request), first);
    copy_burst(store, from, room, k, first);
}

// Burst m of a read of all of queue pair n's record. A caller that knows what is read need build no
// request.
pub fn read_qp_burst(logs: Logs, store: &[u8], room: &mut [u8], k: usize, n: QpNumber, m: u8)
    requires { Moving logs store.now room.old k (qp_read n) m }
    ensures { room.new
        ≡ room_copied k (offset_of (qp_read n) m) (read_out logs (memory store.now) (qp_read n) m) room.old }
{
    let first = m as usize * BURST;
    let from = store_tables::record_at(logs, Record::Qp(n)) + first;
    copy_burst(store, from, room, k, first);
}

// Burst m of a joined read.
pub fn read_joined_burst(
    logs: Logs,
    store: &[u8],
    room: &mut [u8],
    k: usize,
    n: QpNumber,
    c: CqNumber,
    e: EqNumber,
    m: u8,
)
    requires { Moving logs store.now room.old k (joined_read n c e) m }
    ensures { room.new
        ≡ room_copied k (offset_of (joined_read n c e) m) (read_out logs (memory store.now) (joined_read n c e) m) room.old }
{
    let first = m as usize * BURST;
    let from = three_place(logs, n, c, e, first);
    copy_burst(store, from, room, k, first);
}

// Whether a request's record permits it.
pub fn permission(logs: Logs, store: &[u8], request: Request) -> Result<(), Denial>
    requires { Stored logs store.now request }
    ensures { result ≡ permission_in logs (memory store.now) request }
{
    let at = record_place(logs, request);
    checks::permission_at(request, store, at)
}

// The completion queue that a queue pair names.
pub fn cq_named(logs: Logs, store: &[u8], n: QpNumber) -> u32
    requires logs_value { ranges_hold logs ≡ true }
    requires n_value { is_record logs (Qp n) ≡ true }
    requires fits { Fits logs (memory store.now) }
    ensures { result ≡ cq_named (record_in logs (memory store.now) (Qp n)) }
{
    let at = store_tables::record_at(logs, Record::Qp(n));
    let end = at + 256;
    checks::cq_named(&store[at..end])
}

// The event queue that a completion queue names.
pub fn eq_named(logs: Logs, store: &[u8], c: CqNumber) -> u32
    requires logs_value { ranges_hold logs ≡ true }
    requires c_value { is_record logs (Cq c) ≡ true }
    requires fits { Fits logs (memory store.now) }
    ensures { result ≡ eq_named (record_in logs (memory store.now) (Cq c)) }
{
    let at = store_tables::record_at(logs, Record::Cq(c));
    let end = at + 64;
    checks::eq_named(&store[at..end])
}

// Makes every record zero.
pub fn zero(logs: Logs, store: &mut [u8])
    requires logs_value { ranges_hold logs ≡ true }
    requires fits { Fits logs (memory store.old) }
    ensures { memory store.new ≡ zeroed logs (memory store.old) }
{
    let n = store_tables::bytes_in_use(logs);
    words::fill(store, 0, n, 0);
}
