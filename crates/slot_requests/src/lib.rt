// A slot's request from the numbers that it is handed in with, by a script or in the C interface's
// bytes. A slot handed in may be impossible, so the index, the PSN and the names of a joined read are
// not judged; but what no submission could ever put into a slot, the slot's type cannot hold.
#![tactic(auto)]

ghost use Rattle.std.specs.Prelude.{◌≡◌};
ghost use Rattle.slot_requests.specs.Requests.{any_index, on_record, with_op, command_in, with_psn, code_of, on_one, joined_on, on_queue_pair, with_number, engine_in};

use commands::{CommandAsked, Op};
use context::{CqNumber, EqNumber, Logs, QpNumber};
use engines::{EngineAsked, EngineNumber};
use requests::{EngineRequest, Request};

// Counts so great that every index is below them.
pub fn any_index() -> Logs
    ensures { result ≡ any_index }
{
    Logs {
        qps: 32,
        cqs: 32,
        eqs: 32,
        mpts: 32,
    }
}

fn on_record(found: Option<CommandAsked>) -> Option<Request>
    ensures { result ≡ on_record found }
{
    match found? {
        CommandAsked::InitHca => None,
        CommandAsked::CloseHca => None,
        CommandAsked::Nop => None,
        CommandAsked::OnRecord(command) => Some(Request::Command(command)),
    }
}

fn with_op(found: Option<Op>, modifier: u8, index: u32) -> Option<Request>
    ensures { result ≡ with_op found modifier index }
{
    on_record(commands::read_command(found?, modifier, index, any_index()))
}

// A command on a record.
pub fn read_command(op: u16, modifier: u8, index: u32) -> Option<Request>
    ensures { result ≡ command_in op modifier index }
{
    with_op(commands::read_op(op), modifier, index)
}

// The same engine request with another PSN, if it has one.
fn with_psn(engine: EngineRequest, psn: u32) -> EngineRequest
    ensures { result ≡ with_psn engine psn }
{
    match engine {
        EngineRequest::ReadState(n) => EngineRequest::ReadState(n),
        EngineRequest::ReadNext(n) => EngineRequest::ReadNext(n),
        EngineRequest::ReadAll(n) => EngineRequest::ReadAll(n),
        EngineRequest::Write(field, state, n, _) => EngineRequest::Write(field, state, n, psn),
        EngineRequest::ReadJoined(n, c, e) => EngineRequest::ReadJoined(n, c, e),
    }
}

// A state as a submission takes it, in one byte. A larger one is no state, as 255 is none.
fn code_of(state: u32) -> u8
    ensures { result ≡ code_of state }
{
    if 255 < state {
        return 255;
    }
    state as u8
}

// A request on one queue pair.
fn on_one(engine: EngineRequest, psn: u32, state: u32) -> Option<Request>
    ensures { result ≡ on_one engine psn state }
{
    if 255 < state {
        return None;
    }
    Some(Request::Engine(with_psn(engine, psn)))
}

// A joined read.
fn joined(n: QpNumber, cq: u32, eq: u32) -> Option<Request>
    ensures { result ≡ joined_on n cq eq }
{
    Some(Request::Engine(EngineRequest::ReadJoined(n, CqNumber(cq), EqNumber(eq))))
}

// Where other requests have PSN and state, a joined read has its names.
fn on_queue_pair(found: Option<EngineAsked>, psn: u32, state: u32) -> Option<Request>
    ensures { result ≡ on_queue_pair found psn state }
{
    match found? {
        EngineAsked::OnRecord(engine) => on_one(engine, psn, state),
        EngineAsked::Joined(n) => joined(n, psn, state),
    }
}

// The request is read with the PSN 0, which is never refused.
fn with_number(found: Option<EngineNumber>, index: u32, psn: u32, state: u32) -> Option<Request>
    ensures { result ≡ with_number found index psn state }
{
    let asked = engines::read_engine(found?, index, 0, code_of(state), any_index());
    on_queue_pair(asked, psn, state)
}

// An engine request.
pub fn read_engine(number: u32, index: u32, psn: u32, state: u32) -> Option<Request>
    ensures { result ≡ engine_in number index psn state }
{
    with_number(engines::read_number(number), index, psn, state)
}
