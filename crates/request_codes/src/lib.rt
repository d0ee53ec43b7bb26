// The numbers of a request: a command's op, an engine request's number, and the index of its record.
#![tactic(auto)]

ghost use Rattle.std.specs.Prelude.{◌≡◌};
ghost use Rattle.request_codes.specs.Numbers.{edge_op, sw2hw_op, hw2sw_op, command_op, write_number, engine_number, index_of};

use context::Record;
use edges::Edge;
use requests::{Command, EngineRequest, Owned, PsnField, Request};

fn edge_op(edge: Edge) -> u16
    ensures { result ≡ edge_op edge }
{
    match edge {
        Edge::ResetToInit => 0x19,
        Edge::InitToInit => 0x2d,
        Edge::InitToRtr => 0x1a,
        Edge::RtrToRts => 0x1b,
        Edge::RtsToRts => 0x1c,
        Edge::SqeToRts => 0x1d,
        Edge::RtsToSqd => 0x1f,
        Edge::SqdToSqd => 0x38,
        Edge::SqdToRts => 0x20,
        Edge::ToErr => 0x1e,
        Edge::ToReset => 0x21,
    }
}

fn sw2hw_op(owned: Owned) -> u16
    ensures { result ≡ sw2hw_op owned }
{
    match owned {
        Owned::Mpt(_) => 0x0d,
        Owned::Eq(_) => 0x13,
        Owned::Cq(_) => 0x16,
    }
}

fn hw2sw_op(owned: Owned) -> u16
    ensures { result ≡ hw2sw_op owned }
{
    match owned {
        Owned::Mpt(_) => 0x0f,
        Owned::Eq(_) => 0x14,
        Owned::Cq(_) => 0x17,
    }
}

// The op of a command.
pub fn command_op(command: Command) -> u16
    ensures { result ≡ command_op command }
{
    match command {
        Command::Sw2Hw(owned) => sw2hw_op(owned),
        Command::Hw2Sw(owned) => hw2sw_op(owned),
        Command::ResizeCq(_) => 0x2c,
        Command::QueryQp(_) => 0x22,
        Command::ModifyQp(edge, _) => edge_op(edge),
    }
}

fn write_number(field: PsnField) -> u32
    ensures { result ≡ write_number field }
{
    match field {
        PsnField::NextSend => 3,
        PsnField::LastAcked => 4,
        PsnField::Expected => 5,
    }
}

// The number of an engine request.
pub fn engine_number(engine: EngineRequest) -> u32
    ensures { result ≡ engine_number engine }
{
    match engine {
        EngineRequest::ReadState(_) => 1,
        EngineRequest::ReadNext(_) => 2,
        EngineRequest::ReadAll(_) => 6,
        EngineRequest::Write(field, _, _, _) => write_number(field),
        EngineRequest::ReadJoined(_, _, _) => 7,
    }
}

// The index that a request is submitted with: of the joined read, its queue pair's.
pub fn index_of(request: Request) -> u32
    ensures { result ≡ index_of request }
{
    match request_record::record_of(request) {
        Record::Qp(n) => n.0,
        Record::Cq(n) => n.0,
        Record::Eq(n) => n.0,
        Record::Mpt(n) => n.0,
    }
}
