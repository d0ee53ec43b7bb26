// Makes each write of document 01 twice, burst by burst as the model does and at once by a
// reference of its own, and prints both records and whether they are the same. Only the effects are
// compared: what a submission checks first (holds, states, owners) is not run.
#![tactic(auto)]

mod memory;
mod reference;

use commands::CommandAsked;
use context::{Logs, QpNumber};
use edges::State;
use memory::{MAILBOX, PART_AT, RECORD_AT, STORE, Size};
use requests::{EngineRequest, PsnField, Request};
use std::io;

// Record 1, which each table has; queue pair 1 does start at byte 256 of the store.
const INDEX: u32 = 1;

const LOGS: Logs = Logs {
    qps: 3,
    cqs: 2,
    eqs: 1,
    mpts: 2,
};

// Moves all bursts of a request in order, with its mailbox in the slot's part of the room. The store
// has bytes behind the record for every burst that any request could move.
fn move_bursts(store: &mut [u8; STORE], request: Request) {
    let mut room = [0x1du8; burst_table::ROOM];
    memory::fill_mailbox(&mut room[PART_AT..PART_AT + MAILBOX]);
    for m in 0..burst_table::total(request) {
        let first = burst_table::offset(request, m);
        bursts::write_at(store, RECORD_AT + first, &room, PART_AT, request, first);
    }
}

// A write that the model does not serve leaves the store, and the comparison then fails.
fn move_command(store: &mut [u8; STORE], op: u16, op_modifier: u8) {
    let Some(served) = commands::read_op(op) else {
        return;
    };
    let found = commands::read_command(served, op_modifier, INDEX, LOGS);
    let Some(CommandAsked::OnRecord(command)) = found else {
        return;
    };
    move_bursts(store, Request::Command(command));
}

fn run_command(
    rt: &impl Print,
    mailbox: &[u8],
    op: u16,
    op_modifier: u8,
    size: Size,
) -> io::Result<()> {
    let mut whole = memory::store_with_record(size);
    let mut moved = whole;
    reference::command(op, &mut whole[RECORD_AT..], mailbox);
    move_command(&mut moved, op, op_modifier);
    println!(rt; "\nop 0x{op:x}")?;
    memory::report(rt, &moved, &whole, size)
}

// For the reference, `w` is the offset of the PSN's word, and the state and the PSN are said again.
fn run_engine(
    rt: &impl Print,
    number: u32,
    write: EngineRequest,
    w: usize,
    psn: u32,
    to: State,
) -> io::Result<()> {
    let mut whole = memory::store_with_record(Size::Qp);
    let mut moved = whole;
    reference::engine(w, psn, to, &mut whole[RECORD_AT..]);
    move_bursts(&mut moved, Request::Engine(write));
    println!(rt; "\nrequest {number:x}")?;
    memory::report(rt, &moved, &whole, Size::Qp)
}

fn run_commands(rt: &impl Print, ops: &[u16], op_modifier: u8, size: Size) -> io::Result<()> {
    let mut mailbox = [0u8; MAILBOX];
    memory::fill_mailbox(&mut mailbox);
    for op in ops {
        run_command(rt, &mailbox, *op, op_modifier, size)?;
    }
    Ok(())
}

// The edges in the order of document 01's table, then MPT, EQ and CQ for each move of ownership,
// and RESIZE_CQ.
fn run_all_commands(rt: &impl Print) -> io::Result<()> {
    run_commands(
        rt,
        &[0x19, 0x2d, 0x1a, 0x1b, 0x1c, 0x1d, 0x1f, 0x38, 0x20],
        0,
        Size::Qp,
    )?;
    run_commands(rt, &[0x1e, 0x21], 3, Size::Qp)?;
    run_commands(
        rt,
        &[0x0d, 0x13, 0x16, 0x0f, 0x14, 0x17, 0x2c],
        0,
        Size::Other,
    )
}

fn run_engines(rt: &impl Print) -> io::Result<()> {
    let next = EngineRequest::Write(PsnField::NextSend, State::Rts, QpNumber(INDEX), 0x123456);
    run_engine(rt, 3, next, 0x6c, 0x123456, State::Rts)?;
    let acked = EngineRequest::Write(PsnField::LastAcked, State::Sqd, QpNumber(INDEX), 0xfedcba);
    run_engine(rt, 4, acked, 0x7c, 0xfedcba, State::Sqd)?;
    let expected = EngineRequest::Write(PsnField::Expected, State::Rtr, QpNumber(INDEX), 0x000020);
    run_engine(rt, 5, expected, 0x84, 0x000020, State::Rtr)
}

// What each write starts from. A record of 64 bytes has the first 64 of these.
fn print_start(rt: &impl Print) -> io::Result<()> {
    let store = memory::store_with_record(Size::Qp);
    memory::print_bytes(rt, "record before ", &store[RECORD_AT..Size::Qp.end()])?;
    let mut mailbox = [0u8; MAILBOX];
    memory::fill_mailbox(&mut mailbox);
    memory::print_bytes(rt, "mailbox       ", &mailbox)
}

fn main(rt: HostRuntime) -> io::Result<()> {
    print_start(&rt)?;
    run_all_commands(&rt)?;
    run_engines(&rt)
}
