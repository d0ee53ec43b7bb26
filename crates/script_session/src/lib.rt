// What a run of a script keeps from one line to the next.
#![tactic(auto)]

use possible::Hca;
use rules::Refusal;
use script_lines::{LineError, LineResult};
use script_memory::{Device, Lent};
use slots::Slot;

#[derive(Clone, Copy)]
pub struct Session {
    pub hca: Hca,
    pub row: [Slot; 9],
    pub lent: Lent,
    // The last call's refusal.
    pub why: Option<Refusal>,
    // How many lines there were.
    pub lines: u64,
    // Whether each line's answer is printed.
    pub answers: bool,
}

// A fresh device, all of whose slots are free, before the first line. The store and the room stand beside
// the session: a call is lent both at once, which the borrow checker does not follow through one struct.
pub fn begin(lent: Lent, answers: bool) -> Session {
    Session {
        hca: start::closed_state(),
        row: start::nine_free(),
        lent,
        why: None,
        lines: 0,
        answers,
    }
}

// What a call leaves.
pub fn after_call(session: &mut Session, hca: Hca, row: [Slot; 9], why: Option<Refusal>) {
    session.hca = hca;
    session.row = row;
    session.why = why;
}

// What a line on memory leaves.
pub fn relend(session: &mut Session, device: Device) {
    match device {
        Device::Same => {}
        Device::Fresh => after_call(session, start::closed_state(), start::nine_free(), None),
    }
}

// `state OPEN LQ LC LE LM LEN`.
pub fn state(rt: &impl Print, session: &mut Session, line: &[u8]) -> LineResult<()> {
    session.hca = script_states::read_state(line).ok_or(LineError::Format)?;
    script_print::ok(rt, session.answers)?;
    Ok(())
}

// `slot K ..`.
pub fn slot(rt: &impl Print, session: &mut Session, line: &[u8]) -> LineResult<()> {
    let k = script_device::slot_number(line).ok_or(LineError::Format)? as usize;
    let slot = script_device::read_slot(line).ok_or(LineError::Format)?;
    if k < 9 {
        session.row[k] = slot;
    }
    script_print::ok(rt, session.answers)?;
    Ok(())
}

// `show`.
pub fn show(rt: &impl Print, session: &Session, line: &[u8]) -> LineResult<()> {
    if script_words::words(line) != 1 {
        return Err(LineError::Format);
    }
    if session.answers {
        script_show::show(rt, session.hca, session.row, session.lent.row)?;
    }
    Ok(())
}

// `why`.
pub fn why(rt: &impl Print, session: &Session, line: &[u8]) -> LineResult<()> {
    if script_words::words(line) != 1 {
        return Err(LineError::Format);
    }
    if session.answers {
        script_causes::print_cause(rt, session.why)?;
    }
    Ok(())
}
