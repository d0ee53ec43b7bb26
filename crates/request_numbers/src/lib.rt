// Whether a request's records and PSN are ones that its submission accepts.
#![tactic(auto)]

ghost use Rattle.std.specs.Prelude.{◌≡◌};
ghost use Rattle.request_table.specs.Records.{list_of, all_records, psn_holds, numbers_hold};
ghost use Rattle.request_table.specs.declared.Records.TheVariants.{Three};

use context::{CqNumber, EqNumber, Logs, QpNumber, Record};
use request_table::Records;
use requests::{EngineRequest, Request};

// Whether the store has the three records of a joined read.
fn three_records(logs: Logs, n: QpNumber, c: CqNumber, e: EqNumber) -> bool
    ensures { result ≡ all_records logs (list_of (Three n c e)) }
{
    if !record_kinds::is_record(logs, Record::Qp(n)) {
        return false;
    }
    if !record_kinds::is_record(logs, Record::Cq(c)) {
        return false;
    }
    record_kinds::is_record(logs, Record::Eq(e))
}

// Whether the store has all of some records.
pub fn all_records(logs: Logs, records: Records) -> bool
    ensures { result ≡ all_records logs (list_of records) }
{
    match records {
        Records::One(rec) => record_kinds::is_record(logs, rec),
        Records::Three(n, c, e) => three_records(logs, n, c, e),
    }
}

// Whether the PSN of an engine write fits its 24 bits; other requests have none.
fn psn_holds(request: Request) -> bool
    ensures { result ≡ psn_holds request }
{
    let Request::Engine(engine) = request else {
        return true;
    };
    match engine {
        EngineRequest::ReadState(_) => true,
        EngineRequest::ReadNext(_) => true,
        EngineRequest::ReadAll(_) => true,
        EngineRequest::Write(_, _, _, psn) => requests::psn_fits(psn),
        EngineRequest::ReadJoined(_, _, _) => true,
    }
}

// Whether a request's records and PSN are ones that its submission accepts.
pub fn numbers_hold(request: Request, logs: Logs) -> bool
    ensures { result ≡ numbers_hold logs request }
{
    if !all_records(logs, record_lists::records_of(request)) {
        return false;
    }
    psn_holds(request)
}
