// The answer that collecting a request writes, read from the slot's part of the room. Every function here
// is a leaf: its callers have tested the lengths.
#![tactic(auto)]

ghost use Rattle.std.specs.Prelude.{◌≡◌, ◌≤◌, length};
ghost use Rattle.words.specs.Parts.{splice};
ghost use Rattle.context.specs.Layout.{size_of};
ghost use Rattle.context.specs.declared.Kind.TheVariants.{Qp};
ghost use Rattle.burst_table.specs.Sizes.{slot_room};
ghost use Rattle.answers.specs.Answers.{state_answer, next_answer, whole_answer, joined_answer, command_answer, engine_answer, answer_of};
ghost use Rattle.answers.specs.Answers.{three_size, command_answer_size, engine_answer_size, answer_size};

use requests::{Command, EngineRequest, Request};

// How many bytes a command's answer has.
fn command_answer_size(command: Command) -> usize
    ensures { result ≡ command_answer_size command }
{
    match command {
        Command::Sw2Hw(_) => 0,
        Command::Hw2Sw(_) => 0,
        Command::ResizeCq(_) => 0,
        Command::QueryQp(_) => 256,
        Command::ModifyQp(_, _) => 0,
    }
}

// How many bytes an engine request's answer has.
fn engine_answer_size(engine: EngineRequest) -> usize
    ensures { result ≡ engine_answer_size engine }
{
    match engine {
        EngineRequest::ReadState(_) => 1,
        EngineRequest::ReadNext(_) => 4,
        EngineRequest::ReadAll(_) => 256,
        EngineRequest::Write(_, _, _, _) => 0,
        EngineRequest::ReadJoined(_, _, _) => 384,
    }
}

// How many bytes a request's answer has.
pub fn answer_size(request: Request) -> usize
    ensures { result ≡ answer_size request }
{
    match request {
        Request::Command(command) => command_answer_size(command),
        Request::Engine(engine) => engine_answer_size(engine),
    }
}

// Writes the state code.
fn state_answer(room: &[u8], out: &mut [u8])
    requires { (slot_room ≤ length room.now) × (1 ≤ length out.old) }
    ensures { out.new ≡ splice 0 (state_answer room.now) out.old }
{
    out[0] = checks::state_code(room);
}

// Writes the state code, then the next PSN, high byte first: as it stands in its word.
fn next_answer(room: &[u8], out: &mut [u8])
    requires { (slot_room ≤ length room.now) × (4 ≤ length out.old) }
    ensures { out.new ≡ splice 0 (next_answer room.now) out.old }
{
    out[0] = checks::state_code(room);
    words::copy_to(&room[0x6d..0x70], out, 1);
}

// Writes the whole record.
fn whole_answer(room: &[u8], out: &mut [u8])
    requires { (slot_room ≤ length room.now) × (size_of Qp ≤ length out.old) }
    ensures { out.new ≡ splice 0 (whole_answer room.now) out.old }
{
    words::copy_to(&room[0..256], out, 0);
}

// Writes the three records of a joined read.
fn joined_answer(room: &[u8], out: &mut [u8])
    requires { (slot_room ≤ length room.now) × (three_size ≤ length out.old) }
    ensures { out.new ≡ splice 0 (joined_answer room.now) out.old }
{
    words::copy_to(&room[0..384], out, 0);
}

// Writes a command's answer.
fn command_answer(command: Command, room: &[u8], out: &mut [u8])
    requires { (slot_room ≤ length room.now) × (command_answer_size command ≤ length out.old) }
    ensures { out.new ≡ splice 0 (command_answer command room.now) out.old }
{
    match command {
        Command::Sw2Hw(_) => {}
        Command::Hw2Sw(_) => {}
        Command::ResizeCq(_) => {}
        Command::QueryQp(_) => whole_answer(room, out),
        Command::ModifyQp(_, _) => {}
    }
}

// Writes an engine request's answer.
fn engine_answer(engine: EngineRequest, room: &[u8], out: &mut [u8])
    requires { (slot_room ≤ length room.now) × (engine_answer_size engine ≤ length out.old) }
    ensures { out.new ≡ splice 0 (engine_answer engine room.now) out.old }
{
    match engine {
        EngineRequest::ReadState(_) => state_answer(room, out),
        EngineRequest::ReadNext(_) => next_answer(room, out),
        EngineRequest::ReadAll(_) => whole_answer(room, out),
        EngineRequest::Write(_, _, _, _) => {}
        EngineRequest::ReadJoined(_, _, _) => joined_answer(room, out),
    }
}

// Writes a request's answer to the front of `out`, from `room`, the slot's part of the room.
pub fn write_answer(request: Request, room: &[u8], out: &mut [u8])
    requires { (slot_room ≤ length room.now) × (answer_size request ≤ length out.old) }
    ensures { out.new ≡ splice 0 (answer_of request room.now) out.old }
{
    match request {
        Request::Command(command) => command_answer(command, room, out),
        Request::Engine(engine) => engine_answer(engine, room, out),
    }
}
