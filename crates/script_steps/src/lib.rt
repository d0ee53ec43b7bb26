// A script's steps, collections and resets.
#![tactic(auto)]

use rules::Refusal;
use script_bytes::front;
use script_lines::{LineError, LineResult};
use script_session::{Session, after_call};
use std::io;

// The bytes that a collection's buffer has before.
const UNTOUCHED: u8 = 0xee;

fn print_step(rt: &impl Print, answer: Result<u8, Refusal>) -> io::Result<()> {
    let number = numbers_returned::step_number(answer);
    match answer {
        Ok(left) => println!(rt; "{number:#x} left {left}"),
        Err(_) => println!(rt; "{number:#x}"),
    }
}

fn print_collect(rt: &impl Print, answer: Result<usize, Refusal>, buffer: &[u8]) -> io::Result<()> {
    let number = numbers_returned::collect_number(answer);
    match answer {
        Ok(length) => print!(rt; "{number:#x} {length} ")?,
        Err(_) => print!(rt; "{number:#x} ")?,
    }
    script_print::bytes(rt, buffer)?;
    script_print::end(rt)
}

// `step K`.
pub fn step(
    rt: &impl Print,
    session: &mut Session,
    line: &[u8],
    store: &mut [u8],
    room: &mut [u8],
) -> LineResult<()> {
    let read = script_lines::numbers(line, 1, 1).ok_or(LineError::Format)?;
    let lent = session.lent;
    let n = front(lent.store, store);
    let m = front(lent.room, room);
    let done = adapter_fronts::step_front(
        session.hca,
        session.row,
        lent.row,
        &mut store[..n],
        &mut room[..m],
        read[0] as usize,
    );
    if session.answers {
        print_step(rt, done.answer)?;
    }
    let why = call_causes::of_step(done.answer);
    after_call(session, session.hca, done.row, why);
    Ok(())
}

// `collect K LEN`.
pub fn collect(
    rt: &impl Print,
    session: &mut Session,
    line: &[u8],
    store: &[u8],
    room: &[u8],
) -> LineResult<()> {
    let read = script_lines::numbers(line, 1, 2).ok_or(LineError::Format)?;
    let mut buffer = [UNTOUCHED; 512];
    let Some(out) = buffer.get_mut(..read[1] as usize) else {
        return Err(LineError::Format);
    };
    let lent = session.lent;
    let n = front(lent.store, store);
    let m = front(lent.room, room);
    let done = adapter_fronts::collect_front(
        session.hca,
        session.row,
        lent.row,
        &store[..n],
        &room[..m],
        read[0] as usize,
        out,
    );
    if session.answers {
        print_collect(rt, done.answer, out)?;
    }
    let why = call_causes::of_collect(done.answer);
    after_call(session, session.hca, done.row, why);
    Ok(())
}

// `reset`.
pub fn reset(
    rt: &impl Print,
    session: &mut Session,
    line: &[u8],
    store: &[u8],
    room: &[u8],
) -> LineResult<()> {
    if script_words::words(line) != 1 {
        return Err(LineError::Format);
    }
    let lent = session.lent;
    let n = front(lent.store, store);
    let m = front(lent.room, room);
    let done = adapter_fronts::reset_front(
        session.hca,
        session.row,
        lent.row,
        &store[..n],
        &room[..m],
    );
    let reply = done.answer;
    if session.answers {
        let number = numbers_returned::reset_number(reply.answer);
        println!(rt; "{number:#x}")?;
    }
    let why = call_causes::of_reset(reply.answer);
    after_call(session, reply.hca, done.row, why);
    Ok(())
}
