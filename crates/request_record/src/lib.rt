// The record that a request's index names.
#![tactic(auto)]

ghost use Rattle.std.specs.Prelude.{◌≡◌};
ghost use Rattle.request_table.specs.Records.{owned_record, command_record, engine_record, record_of};

use context::Record;
use requests::{Command, EngineRequest, Owned, Request};

// The record of a kind that has an owner.
fn owned_record(owned: Owned) -> Record
    ensures { result ≡ owned_record owned }
{
    match owned {
        Owned::Mpt(n) => Record::Mpt(n),
        Owned::Eq(n) => Record::Eq(n),
        Owned::Cq(n) => Record::Cq(n),
    }
}

fn command_record(command: Command) -> Record
    ensures { result ≡ command_record command }
{
    match command {
        Command::Sw2Hw(owned) => owned_record(owned),
        Command::Hw2Sw(owned) => owned_record(owned),
        Command::ResizeCq(n) => Record::Cq(n),
        Command::QueryQp(n) => Record::Qp(n),
        Command::ModifyQp(_, n) => Record::Qp(n),
    }
}

fn engine_record(engine: EngineRequest) -> Record
    ensures { result ≡ engine_record engine }
{
    match engine {
        EngineRequest::ReadState(n) => Record::Qp(n),
        EngineRequest::ReadNext(n) => Record::Qp(n),
        EngineRequest::ReadAll(n) => Record::Qp(n),
        EngineRequest::Write(_, _, n, _) => Record::Qp(n),
        EngineRequest::ReadJoined(n, _, _) => Record::Qp(n),
    }
}

// The record that a request's index names.
pub fn record_of(request: Request) -> Record
    ensures { result ≡ record_of request }
{
    match request {
        Request::Command(command) => command_record(command),
        Request::Engine(engine) => engine_record(engine),
    }
}
