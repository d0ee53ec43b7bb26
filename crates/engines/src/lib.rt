// How an engine request is read: from its number to what is served, and from index, PSN and state to
// the request.
#![tactic(auto)]

ghost use Rattle.std.specs.Prelude.{◌≡◌};
ghost use Rattle.words.specs.Choice.{pick};
ghost use Rattle.engines.specs.Engines.{read_number, state_from, engine_write_of, engine_on, read_engine};
ghost use Rattle.engines.specs.Engines.{is_numbered, number_found_number, engine_right, engine_found_number};

use context::{Logs, QpNumber};
use edges::State;
use requests::{EngineRequest, PsnField};

// The engine requests' numbers that are served.
#[derive(Clone, Copy)]
pub enum EngineNumber {
    ReadState,
    ReadNext,
    ReadAll,
    Write(PsnField),
    ReadJoined,
}

// A request that is whole as it was asked for, or the joined read of a queue pair, whose other records
// the submission finds named.
#[derive(Clone, Copy)]
pub enum EngineAsked {
    OnRecord(EngineRequest),
    Joined(QpNumber),
}

pub fn read_number(number: u32) -> Option<EngineNumber>
    ensures { (result ≡ read_number number) × (number_found_number result ≡ pick (is_numbered number) 0 2) }
{
    match number {
        1 => Some(EngineNumber::ReadState),
        2 => Some(EngineNumber::ReadNext),
        3 => Some(EngineNumber::Write(PsnField::NextSend)),
        4 => Some(EngineNumber::Write(PsnField::LastAcked)),
        5 => Some(EngineNumber::Write(PsnField::Expected)),
        6 => Some(EngineNumber::ReadAll),
        7 => Some(EngineNumber::ReadJoined),
        _ => None, // 0, or above 7
    }
}

fn read_state(code: u8) -> Option<State>
    ensures { result ≡ state_from code }
{
    match code {
        0 => Some(State::Reset),
        1 => Some(State::Init),
        2 => Some(State::Rtr),
        3 => Some(State::Rts),
        4 => Some(State::Sqe),
        5 => Some(State::Sqd),
        6 => Some(State::Err),
        _ => None, // above 6
    }
}

fn engine_write(which: PsnField, n: QpNumber, psn: u32, found: Option<State>) -> Option<EngineAsked>
    ensures { result ≡ engine_write_of which n psn found }
{
    if !requests::psn_fits(psn) {
        return None;
    }
    Some(EngineAsked::OnRecord(EngineRequest::Write(which, found?, n, psn)))
}

fn engine_on(number: EngineNumber, n: QpNumber, psn: u32, code: u8) -> Option<EngineAsked>
    ensures { result ≡ engine_on number n psn code }
{
    match number {
        EngineNumber::ReadState => Some(EngineAsked::OnRecord(EngineRequest::ReadState(n))),
        EngineNumber::ReadNext => Some(EngineAsked::OnRecord(EngineRequest::ReadNext(n))),
        EngineNumber::ReadAll => Some(EngineAsked::OnRecord(EngineRequest::ReadAll(n))),
        EngineNumber::Write(which) => engine_write(which, n, psn, read_state(code)),
        EngineNumber::ReadJoined => Some(EngineAsked::Joined(n)),
    }
}

// The engine request, or `None` where index, PSN or state is wrong. Reads do not look at PSN and
// state.
pub fn read_engine(
    number: EngineNumber,
    index: u32,
    psn: u32,
    code: u8,
    logs: Logs,
) -> Option<EngineAsked>
    ensures { (result ≡ read_engine logs number index psn code)
        × (engine_found_number result ≡ pick (engine_right logs number index psn code) 0 3) }
{
    let n = numbers::qp_number(logs, index)?;
    engine_on(number, n, psn, code)
}
