// The four tables in the store: whether they fit it, where each starts, where a record starts, and
// INIT_HCA's mailbox, which says how large they are.
#![tactic(auto)]

ghost use Rattle.std.specs.Prelude.{◌≡◌, true, ◌^◌, ◌≤◌};
ghost use Rattle.context.specs.Layout.{start_of, in_use, ranges_hold, fits_store, is_record, record_at};
ghost use Rattle.context.specs.Init.{init_rows, init_of, init_found_number};

use context::{InitError, Kind, Logs, Record};

// Whether each logarithm is within its range.
fn ranges_hold(logs: Logs) -> bool
    ensures { result ≡ ranges_hold logs }
{
    if 14 < logs.qps {
        return false;
    }
    if 14 < logs.cqs {
        return false;
    }
    if 5 < logs.eqs {
        return false;
    }
    logs.mpts <= 16
}

fn count(log: u8) -> usize
    requires { log ≤ 16 }
    ensures { (result ≡ 2 ^ log) × (result ≤ 65536) }
{
    1usize << log
}

// Where a table starts.
fn table_start(logs: Logs, kind: Kind) -> usize
    requires { ranges_hold logs ≡ true }
    ensures { result ≡ start_of logs kind }
{
    let cqs = count(logs.qps) * 256;
    let eqs = cqs + count(logs.cqs) * 64;
    let mpts = eqs + count(logs.eqs) * 64;
    match kind {
        Kind::Qp => 0,
        Kind::Cq => cqs,
        Kind::Eq => eqs,
        Kind::Mpt => mpts,
    }
}

// The bytes that the four tables take.
pub fn bytes_in_use(logs: Logs) -> usize
    requires { ranges_hold logs ≡ true }
    ensures { result ≡ in_use logs }
{
    table_start(logs, Kind::Mpt) + count(logs.mpts) * 64
}

// Whether the tables have counts within their ranges and fit a store of this length.
pub fn fits_store(logs: Logs, store: usize) -> bool
    ensures { result ≡ fits_store logs store }
{
    if !ranges_hold(logs) {
        return false;
    }
    bytes_in_use(logs) <= store
}

// Where a record starts in the store.
pub fn record_at(logs: Logs, rec: Record) -> usize
    requires logs_value { ranges_hold logs ≡ true }
    requires rec_value { is_record logs rec ≡ true }
    ensures { result ≡ record_at logs rec }
{
    let kind = record_kinds::kind_of(rec);
    table_start(logs, kind) + record_kinds::number_of(rec) as usize * record_kinds::size(kind)
}

// The logarithms of INIT_HCA's mailbox.
pub fn read_init(mailbox: &[u8], store: usize) -> Result<Logs, InitError>
    ensures { (result ≡ init_of mailbox.now store) × (init_found_number result ≡ init_rows mailbox.now store 0x83 3 0) }
{
    if mailbox.len() < 64 {
        return Err(InitError::ShortMailbox);
    }
    let logs = Logs {
        qps: mailbox[0x0f],
        cqs: mailbox[0x17],
        eqs: mailbox[0x1f],
        mpts: mailbox[0x37],
    };
    if fits_store(logs, store) {
        return Ok(logs);
    }
    Err(InitError::OutOfRange)
}
