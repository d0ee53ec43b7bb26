// A script's submissions: commands and engine requests.
#![tactic(auto)]

use front_rows::FrontAnswer;
use lent_answers::Reply;
use rules::{Refusal, Submission};
use script_bytes::front;
use script_lines::{LineError, LineResult};
use script_session::{Session, after_call};
use script_words::{word, words};
use std::io;

fn print_submit(rt: &impl Print, answer: Result<Submission, Refusal>) -> io::Result<()> {
    let number = numbers_returned::submit_number(answer);
    match answer {
        Ok(Submission::Accepted(k)) => println!(rt; "{number:#x} slot {k}"),
        _ => println!(rt; "{number:#x}"),
    }
}

// What a submission leaves.
fn submitted(
    rt: &impl Print,
    session: &mut Session,
    done: FrontAnswer<Reply<Submission>>,
) -> LineResult<()> {
    let reply = done.answer;
    if session.answers {
        print_submit(rt, reply.answer)?;
    }
    let why = call_causes::of_submit(reply.answer);
    after_call(session, reply.hca, done.row, why);
    Ok(())
}

// `engine NUMBER INDEX PSN STATE`.
pub fn engine(
    rt: &impl Print,
    session: &mut Session,
    line: &[u8],
    store: &mut [u8],
    room: &mut [u8],
) -> LineResult<()> {
    let read = script_lines::numbers(line, 1, 4).ok_or(LineError::Format)?;
    let state = u8::try_from(read[3]).map_err(|_| LineError::Format)?;
    let lent = session.lent;
    let n = front(lent.store, store);
    let m = front(lent.room, room);
    let done = adapter_front_submits::engine_front(
        session.hca,
        session.row,
        lent.row,
        &mut store[..n],
        &mut room[..m],
        read[0],
        read[1],
        read[2],
        state,
    );
    submitted(rt, session, done)
}

// The bytes that a word stands for, put at the front of `out`, if they fit.
fn bytes_of<'a>(word: &[u8], out: &'a mut [u8]) -> LineResult<&'a mut [u8]> {
    let n = script_bytes::count(word).ok_or(LineError::Format)?;
    let Some(part) = out.get_mut(..n) else {
        return Err(LineError::Format);
    };
    script_bytes::fill(word, part);
    Ok(part)
}

// `command HCR MAILBOX`.
pub fn command(
    rt: &impl Print,
    session: &mut Session,
    line: &[u8],
    store: &mut [u8],
    room: &mut [u8],
) -> LineResult<()> {
    if words(line) != 3 {
        return Err(LineError::Format);
    }
    let mut register = [0u8; 64];
    let mut mail = [0u8; 4096];
    let register = bytes_of(word(line, 1), &mut register)?;
    let mail = bytes_of(word(line, 2), &mut mail)?;
    let lent = session.lent;
    let n = front(lent.store, store);
    let m = front(lent.room, room);
    let done = adapter_front_submits::command_front(
        session.hca,
        session.row,
        lent.row,
        &mut store[..n],
        &mut room[..m],
        register,
        mail,
    );
    submitted(rt, session, done)
}
