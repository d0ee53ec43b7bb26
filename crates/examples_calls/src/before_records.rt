// The rows of the table of numbers returned that are found before a record is looked at, in the table's order.
ghost use Rattle.std.specs.Prelude.{◌≡◌};
ghost use Rattle.hcr.specs.Register.{write_answer_number};

use crate::calls::{Unusual, collect, command, modified, read, reset, step, write_code};
use crate::checking::{beside_read, check, in_rtr, while_closed, while_open};
use crate::device::Device;
use example_text::check_number;
use hcr::{HcrCommand, WriteError};
use std::io;

pub fn lengths(rt: &impl Print) -> io::Result<()> {
    while_open(rt, "row of seven slots", read(1, 0).row_of(7), 0x83)?;
    while_open(rt, "row of nine slots", read(1, 0).row_of(9), 0x83)?;
    while_open(
        rt,
        "room of 3071 bytes",
        read(1, 0).but(Unusual::Room3071),
        0x83,
    )?;
    while_open(
        rt,
        "store of 2687 bytes while open",
        read(1, 0).but(Unusual::Store2687),
        0x83,
    )?;
    while_open(
        rt,
        "store of 2689 bytes while open",
        read(1, 0).but(Unusual::Store2689),
        0x83,
    )?;
    while_open(
        rt,
        "HCR of 27 bytes",
        command(0x31, 0).but(Unusual::Hcr27),
        0x83,
    )
}

// A closed state with an occupied slot is impossible.
pub fn impossible(rt: &impl Print) -> io::Result<()> {
    beside_read(
        rt,
        "request 1 in an impossible state",
        read(1, 0).but(Unusual::ClosedState),
        0x87,
    )?;
    beside_read(
        rt,
        "reset in an impossible state",
        reset().but(Unusual::ClosedState),
        0,
    )
}

pub fn slot_numbers(rt: &impl Print) -> io::Result<()> {
    while_open(rt, "step of slot 8", step(8), 0x84)?;
    while_open(rt, "step of a free slot", step(0), 0x84)?;
    check(
        rt,
        "step of a finished slot",
        Device::open().then(read(1, 0)).repeat(step(0), 2),
        0x84,
    )?;
    beside_read(rt, "collect of a running slot", collect(0), 0x86)?;
    check(
        rt,
        "collect of 256 bytes into 255",
        Device::open()
            .then(read(6, 0))
            .repeat(step(0), 16)
            .then(collect(0).but(Unusual::Buffer255)),
        0x83,
    )?;
    check(
        rt,
        "collect of 384 bytes into 383",
        Device::open()
            .then(read(7, 0))
            .repeat(step(0), 24)
            .then(collect(0).but(Unusual::Buffer383)),
        0x83,
    )?;
    check(
        rt,
        "collect of 384 bytes into 384",
        Device::open()
            .then(read(7, 0))
            .repeat(step(0), 24)
            .then(collect(0)),
        0,
    )
}

// Document 01's number for what writing a command register answers.
fn write_number(answer: Result<(), WriteError>) -> u64
    ensures { result ≡ write_answer_number answer }
{
    match answer {
        Ok(()) => 0,
        Err(WriteError::Short) => 0x83,
        Err(WriteError::BadOp) => 3,
    }
}

fn write_op(op: u16) -> u64 {
    let mut register = [0u8; 28];
    let command = HcrCommand {
        in_param: 0,
        in_modifier: 0,
        out_param: 0,
        token: 0,
        event: false,
        op_modifier: 0,
        op,
    };
    write_number(hcr_writer::write(&mut register, command))
}

pub fn registers(rt: &impl Print) -> io::Result<()> {
    while_open(rt, "HCR with go 0", command(0x31, 0).but(Unusual::NoGo), 3)?;
    while_open(rt, "HCR with E 1", command(0x31, 0).but(Unusual::Event), 3)?;
    check_number(rt, "op 0x1000 in writing the HCR", write_op(0x1000), 3)?;
    while_open(rt, "op 0x23", command(0x23, 0), 2)?;
    while_open(rt, "request 0", read(0, 0), 2)?;
    while_open(rt, "request 8", read(8, 0), 2)
}

pub fn system_states(rt: &impl Print) -> io::Result<()> {
    while_open(rt, "INIT_HCA while open", command(0x07, 0), 4)?;
    while_closed(rt, "QUERY_QP while closed", command(0x22, 0), 4)?;
    while_closed(rt, "request 1 while closed", read(1, 0), 4)?;
    while_closed(rt, "NOP while closed", command(0x31, 0), 0)
}

pub fn uncollected(rt: &impl Print) -> io::Result<()> {
    check(
        rt,
        "QUERY_QP beside a finished command",
        Device::open()
            .then(command(0x22, 0))
            .repeat(step(0), 16)
            .then(command(0x22, 1)),
        0x81,
    )?;
    check(
        rt,
        "request 1 beside a finished command",
        Device::open()
            .then(command(0x22, 0))
            .repeat(step(0), 16)
            .then(read(1, 1)),
        0,
    )?;
    beside_read(
        rt,
        "CLOSE_HCA beside an occupied slot",
        command(0x08, 0),
        0x81,
    )
}

pub fn parameters(rt: &impl Print) -> io::Result<()> {
    in_rtr(rt, "0x1e with op_modifier 3", modified(0x1e, 7, 3), 0)?;
    while_open(rt, "0x1e with op_modifier 0", command(0x1e, 0), 3)?;
    while_open(rt, "NOP with in_modifier 1", command(0x31, 1), 3)?;
    in_rtr(rt, "request 3 with state 7", write_code(3, 7, 0, 7), 3)?;
    while_open(
        rt,
        "request 1 with PSN 0x1000000 and state 7",
        write_code(1, 0, 0x1000000, 7),
        0,
    )
}

pub fn mailboxes(rt: &impl Print) -> io::Result<()> {
    while_open(rt, "0x19 with 164 mailbox bytes", command(0x19, 0), 0)?;
    while_open(
        rt,
        "0x19 with 163 mailbox bytes",
        command(0x19, 0).but(Unusual::Mailbox163),
        0x83,
    )?;
    while_open(
        rt,
        "0x19 with type 2",
        command(0x19, 0).but(Unusual::Type2),
        3,
    )?;
    while_open(rt, "SW2HW for CQ 0 with word 2Ch 0", command(0x16, 0), 0)?;
    while_open(rt, "SW2HW for CQ 1 with word 2Ch 0", command(0x16, 1), 3)?;
    while_closed(
        rt,
        "INIT_HCA with 2^15 QPs",
        command(0x07, 0).but(Unusual::Log15),
        3,
    )?;
    while_closed(
        rt,
        "INIT_HCA with a store of 2687 bytes",
        command(0x07, 0).but(Unusual::Store2687),
        3,
    )
}
