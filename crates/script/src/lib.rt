// The interpreter of scripts: what each line does and prints.
#![tactic(auto)]

use script_keywords::{Call, Device, Keyword};
use script_lines::{LineError, LineResult};
use script_session::Session;

fn run_call(
    rt: &impl Print,
    call: Call,
    session: &mut Session,
    line: &[u8],
    store: &mut [u8],
    room: &mut [u8],
) -> LineResult<()> {
    match call {
        Call::Command => script_submits::command(rt, session, line, store, room),
        Call::Engine => script_submits::engine(rt, session, line, store, room),
        Call::Step => script_steps::step(rt, session, line, store, room),
        Call::Collect => script_steps::collect(rt, session, line, store, room),
        Call::Reset => script_steps::reset(rt, session, line, store, room),
    }
}

fn run_device(
    rt: &impl Print,
    device: Device,
    session: &mut Session,
    line: &[u8],
) -> LineResult<()> {
    match device {
        Device::State => script_session::state(rt, session, line),
        Device::Slot => script_session::slot(rt, session, line),
        Device::Show => script_session::show(rt, session, line),
        Device::Why => script_session::why(rt, session, line),
    }
}

// Runs a line.
pub fn run_line(
    rt: &impl Print,
    session: &mut Session,
    line: &[u8],
    store: &mut [u8],
    room: &mut [u8],
) -> LineResult<()> {
    match script_keywords::read_keyword(script_words::word(line, 0)) {
        Keyword::Call(call) => run_call(rt, call, session, line, store, room),
        Keyword::Memory(memory) => {
            let answers = session.answers;
            let lent = &mut session.lent;
            let device = script_memory::run(rt, memory, lent, line, store, room, answers)?;
            script_session::relend(session, device);
            Ok(())
        }
        Keyword::Device(device) => run_device(rt, device, session, line),
        Keyword::Unknown => Err(LineError::Format),
    }
}
