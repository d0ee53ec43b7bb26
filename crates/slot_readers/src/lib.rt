// A slot from its 32 bytes of the C interface's device. Any bytes are read: those that no slot has
// give a slot that no state has, so that the rules' own test refuses them.
#![tactic(auto)]

ghost use Rattle.std.specs.Prelude.{◌≡◌, ◌<◌, length};
ghost use Rattle.device_bytes.specs.Decoding.{engine_held, number_held, request_in, broken, status_held, status_of, slot_at};
ghost use Rattle.slot_readers.specs.Reading.{held_as};

use context::{CqNumber, EqNumber, QpNumber};
use engines::{EngineAsked, EngineNumber};
use requests::{EngineRequest, Request};
use slots::{Slot, Status};

fn engine_held(cq: u32, eq: u32, found: Option<EngineAsked>) -> Option<Request>
    ensures { result ≡ engine_held cq eq found }
{
    match found {
        Some(EngineAsked::OnRecord(engine)) => Some(Request::Engine(engine)),
        Some(EngineAsked::Joined(n)) => {
            Some(Request::Engine(EngineRequest::ReadJoined(n, CqNumber(cq), EqNumber(eq))))
        }
        None => None,
    }
}

fn number_held(
    index: u32,
    cq: u32,
    eq: u32,
    psn: u32,
    state: u8,
    found: Option<EngineNumber>,
) -> Option<Request>
    ensures { result ≡ number_held index cq eq psn state found }
{
    match found {
        Some(number) => {
            engine_held(
                cq,
                eq,
                engines::read_engine(number, index, psn, state, slot_requests::any_index()),
            )
        }
        None => None,
    }
}

fn read_request(s: &[u8]) -> Option<Request>
    requires { length s.now ≡ 32 }
    ensures { result ≡ request_in s.now }
{
    let kind = s[1];
    let op = u16::from_le_bytes([s[4], s[5]]);
    let index = words::read_le32(s, 8);
    if kind == 0 {
        let modifier = s[3];
        return slot_requests::read_command(op, modifier, index);
    }
    if kind == 1 {
        let cq = words::read_le32(s, 12);
        let eq = words::read_le32(s, 16);
        let psn = words::read_le32(s, 20);
        let state = s[24];
        return number_held(
            index,
            cq,
            eq,
            psn,
            state,
            engines::read_number(u32::from(op)),
        );
    }
    None
}

// A status that no state has: every request moves a burst.
pub fn broken_status() -> Status
    ensures { result ≡ broken }
{
    Status::Finished(0, Request::Engine(EngineRequest::ReadState(QpNumber(0))))
}

fn held(code: u8, moved: u8, request: Request) -> Status
    ensures { result ≡ held_as code moved request }
{
    if code == 1 {
        return Status::Running(moved, request);
    }
    if code == 2 {
        return Status::Finished(moved, request);
    }
    broken_status()
}

fn status_held(code: u8, moved: u8, found: Option<Request>) -> Status
    ensures { result ≡ status_held code moved found }
{
    match found {
        Some(request) => held(code, moved, request),
        None => broken_status(),
    }
}

// A free slot is known by its first byte.
fn read_status(s: &[u8]) -> Status
    requires { length s.now ≡ 32 }
    ensures { result ≡ status_of s.now }
{
    let code = s[0];
    if code == 0 {
        return Status::Free;
    }
    let moved = s[2];
    status_held(code, moved, read_request(s))
}

// Slot `k` of a device of 288 bytes.
pub fn slot_at(dev: &[u8], k: usize) -> Slot
    requires { (k < 8) × (length dev.now ≡ 288) }
    ensures { result ≡ slot_at k dev.now }
{
    let at = 32 + k * 32;
    let end = at + 32;
    Slot {
        status: read_status(&dev[at..end]),
    }
}
