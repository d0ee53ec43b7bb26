// The records that a request holds, as a list that no scan looks inside.
#![tactic(auto)]

ghost use Rattle.std.specs.Prelude.{◌≡◌, ◌<◌, length, get_or};
ghost use Rattle.request_table.specs.Records.{list_of, engine_holds, holds_of, no_record, one_of};
ghost use Rattle.request_table.specs.declared.Records.TheVariants.{Three};

use context::{CqNumber, EqNumber, QpNumber, Record};
use request_table::Records;
use requests::{EngineRequest, Request};

fn engine_records(engine: EngineRequest) -> Records
    ensures { result ≡ engine_holds engine }
{
    match engine {
        EngineRequest::ReadState(n) => Records::One(Record::Qp(n)),
        EngineRequest::ReadNext(n) => Records::One(Record::Qp(n)),
        EngineRequest::ReadAll(n) => Records::One(Record::Qp(n)),
        EngineRequest::Write(_, _, n, _) => Records::One(Record::Qp(n)),
        EngineRequest::ReadJoined(n, c, e) => Records::Three(n, c, e),
    }
}

pub fn records_of(request: Request) -> Records
    ensures { result ≡ holds_of request }
{
    match request {
        Request::Command(_) => Records::One(request_record::record_of(request)),
        Request::Engine(engine) => engine_records(engine),
    }
}

pub fn count(records: Records) -> usize
    ensures { result ≡ length (list_of records) }
{
    match records {
        Records::One(_) => 1,
        Records::Three(_, _, _) => 3,
    }
}

fn nth_of_three(n: QpNumber, c: CqNumber, e: EqNumber, j: usize) -> Record
    requires { j < 3 }
    ensures { result ≡ get_or (list_of (Three n c e)) j no_record }
{
    if j == 0 {
        return Record::Qp(n);
    }
    if j == 1 {
        return Record::Cq(c);
    }
    Record::Eq(e)
}

pub fn nth(records: Records, j: usize) -> Record
    requires { j < length (list_of records) }
    ensures { result ≡ get_or (list_of records) j no_record }
{
    match records {
        Records::One(rec) => rec,
        Records::Three(n, c, e) => nth_of_three(n, c, e, j),
    }
}

fn one_of_three(n: QpNumber, c: CqNumber, e: EqNumber, rec: Record) -> bool
    ensures { result ≡ one_of (list_of (Three n c e)) rec }
{
    if record_kinds::same_record(Record::Qp(n), rec) {
        return true;
    }
    if record_kinds::same_record(Record::Cq(c), rec) {
        return true;
    }
    record_kinds::same_record(Record::Eq(e), rec)
}

pub fn is_one_of(records: Records, rec: Record) -> bool
    ensures { result ≡ one_of (list_of records) rec }
{
    match records {
        Records::One(first) => record_kinds::same_record(first, rec),
        Records::Three(n, c, e) => one_of_three(n, c, e, rec),
    }
}
