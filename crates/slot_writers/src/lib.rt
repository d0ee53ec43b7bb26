// A slot as its 32 bytes of the C interface's device. What no field uses is 0.
#![tactic(auto)]

ghost use Rattle.std.specs.Prelude.{◌≡◌, ◌<◌, length};
ghost use Rattle.request_codes.specs.Numbers.{command_op, engine_number};
ghost use Rattle.device_bytes.specs.Encoding.{command_modifier, named_cq, named_eq, psn_in, state_in};
ghost use Rattle.device_bytes.specs.Encoding.{slot_bytes, request_bytes, status_bytes, put_slot};
ghost use Rattle.slot_writers.specs.Writing.{command_bytes, engine_bytes};

use requests::{Command, EngineRequest, Request};
use slots::{Slot, Status};

fn command_modifier(command: Command) -> u8
    ensures { result ≡ command_modifier command }
{
    match command {
        Command::Sw2Hw(_) => 0,
        Command::Hw2Sw(_) => 0,
        Command::ResizeCq(_) => 0,
        Command::QueryQp(_) => 0,
        Command::ModifyQp(edge, _) => commands::edge_modifier(edge),
    }
}

fn named_cq(engine: EngineRequest) -> u32
    ensures { result ≡ named_cq engine }
{
    match engine {
        EngineRequest::ReadState(_) => 0,
        EngineRequest::ReadNext(_) => 0,
        EngineRequest::ReadAll(_) => 0,
        EngineRequest::Write(_, _, _, _) => 0,
        EngineRequest::ReadJoined(_, cq, _) => cq.0,
    }
}

fn named_eq(engine: EngineRequest) -> u32
    ensures { result ≡ named_eq engine }
{
    match engine {
        EngineRequest::ReadState(_) => 0,
        EngineRequest::ReadNext(_) => 0,
        EngineRequest::ReadAll(_) => 0,
        EngineRequest::Write(_, _, _, _) => 0,
        EngineRequest::ReadJoined(_, _, eq) => eq.0,
    }
}

fn psn_in(engine: EngineRequest) -> u32
    ensures { result ≡ psn_in engine }
{
    match engine {
        EngineRequest::ReadState(_) => 0,
        EngineRequest::ReadNext(_) => 0,
        EngineRequest::ReadAll(_) => 0,
        EngineRequest::Write(_, _, _, psn) => psn,
        EngineRequest::ReadJoined(_, _, _) => 0,
    }
}

fn state_in(engine: EngineRequest) -> u8
    ensures { result ≡ state_in engine }
{
    match engine {
        EngineRequest::ReadState(_) => 0,
        EngineRequest::ReadNext(_) => 0,
        EngineRequest::ReadAll(_) => 0,
        EngineRequest::Write(_, state, _, _) => u8::from(state),
        EngineRequest::ReadJoined(_, _, _) => 0,
    }
}

// Every op, and every number of an engine request, is below 256.
fn op_byte(command: Command) -> u8
    ensures { result ≡ command_op command }
{
    request_codes::command_op(command) as u8
}

fn number_byte(engine: EngineRequest) -> u8
    ensures { result ≡ engine_number engine }
{
    request_codes::engine_number(engine) as u8
}

fn slot_bytes(
    code: u8,
    kind: u8,
    moved: u8,
    modifier: u8,
    op: u8,
    index: u32,
    cq: u32,
    eq: u32,
    psn: u32,
    state: u8,
) -> [u8; 32]
    ensures { result ≡ slot_bytes code kind moved modifier op index cq eq psn state }
{
    let mut s = [0; 32];
    s[0] = code;
    s[1] = kind;
    s[2] = moved;
    s[3] = modifier;
    s[4] = op;
    s[24] = state;
    words::write_le32(&mut s, 8, index);
    words::write_le32(&mut s, 12, cq);
    words::write_le32(&mut s, 16, eq);
    words::write_le32(&mut s, 20, psn);
    s
}

fn command_bytes(code: u8, moved: u8, command: Command) -> [u8; 32]
    ensures { result ≡ command_bytes code moved command }
{
    slot_bytes(
        code,
        0,
        moved,
        command_modifier(command),
        op_byte(command),
        request_codes::index_of(Request::Command(command)),
        0,
        0,
        0,
        0,
    )
}

fn engine_bytes(code: u8, moved: u8, engine: EngineRequest) -> [u8; 32]
    ensures { result ≡ engine_bytes code moved engine }
{
    slot_bytes(
        code,
        1,
        moved,
        0,
        number_byte(engine),
        request_codes::index_of(Request::Engine(engine)),
        named_cq(engine),
        named_eq(engine),
        psn_in(engine),
        state_in(engine),
    )
}

fn request_bytes(code: u8, moved: u8, request: Request) -> [u8; 32]
    ensures { result ≡ request_bytes code moved request }
{
    match request {
        Request::Command(command) => command_bytes(code, moved, command),
        Request::Engine(engine) => engine_bytes(code, moved, engine),
    }
}

fn status_bytes(status: Status) -> [u8; 32]
    ensures { result ≡ status_bytes status }
{
    match status {
        Status::Free => [0; 32],
        Status::Running(moved, request) => request_bytes(1, moved, request),
        Status::Finished(moved, request) => request_bytes(2, moved, request),
    }
}

// Writes slot `k` of a device of 288 bytes.
pub fn write_slot(dev: &mut [u8], k: usize, slot: Slot)
    requires { (k < 8) × (length dev.old ≡ 288) }
    ensures { dev.new ≡ put_slot k slot dev.old }
{
    let status = slot.status;
    let bytes = status_bytes(status);
    words::copy_to(&bytes, dev, 32 + k * 32);
}
