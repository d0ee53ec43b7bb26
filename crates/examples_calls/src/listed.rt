// P12 and what else document 01's list of examples gives to a program.
use crate::calls::{collect, command, read, step, write};
use crate::checking::{check, check_slot, check_word, in_rtr, while_open};
use crate::device::Device;
use edges::State;
use std::io;

pub fn indices(rt: &impl Print) -> io::Result<()> {
    while_open(rt, "request 1 on QP 7", read(1, 7), 0)?;
    while_open(rt, "request 1 on QP 8", read(1, 8), 3)?;
    while_open(rt, "request 1 on QP 0x800000", read(1, 0x800000), 3)?;
    while_open(rt, "QUERY_QP of QP 7", command(0x22, 7), 0)?;
    while_open(rt, "QUERY_QP of QP 8", command(0x22, 8), 3)?;
    while_open(rt, "QUERY_QP of QP 0x800000", command(0x22, 0x800000), 3)
}

// Each engine write keeps RTR.
pub fn psns(rt: &impl Print) -> io::Result<()> {
    in_rtr(
        rt,
        "request 3 with PSN 0xffffff",
        write(3, 7, 0xffffff, State::Rtr),
        0,
    )?;
    in_rtr(
        rt,
        "request 3 with PSN 0x1000000",
        write(3, 7, 0x1000000, State::Rtr),
        3,
    )?;
    in_rtr(
        rt,
        "request 4 with PSN 0xffffff",
        write(4, 7, 0xffffff, State::Rtr),
        0,
    )?;
    in_rtr(
        rt,
        "request 4 with PSN 0x1000000",
        write(4, 7, 0x1000000, State::Rtr),
        3,
    )?;
    in_rtr(
        rt,
        "request 5 with PSN 0xffffff",
        write(5, 7, 0xffffff, State::Rtr),
        0,
    )?;
    in_rtr(
        rt,
        "request 5 with PSN 0x1000000",
        write(5, 7, 0x1000000, State::Rtr),
        3,
    )
}

// 0x1a took word 84h from the mailbox.
pub fn word_84(rt: &impl Print) -> io::Result<()> {
    check_word(rt, "word 84h as 0x1a took it", Device::ready(), 0x07000010)?;
    check_word(
        rt,
        "P12 word 84h with expected PSN 0x20 written",
        Device::ready()
            .then(write(5, 7, 0x20, State::Rtr))
            .repeat(step(0), 2),
        0x07000020,
    )
}

fn full_row() -> Device {
    Device::open().repeat(read(1, 0), 8)
}

// Reads of one queue pair go together.
pub fn slots(rt: &impl Print) -> io::Result<()> {
    check_slot(rt, "first request", Device::open().then(read(1, 0)), 0)?;
    check_slot(rt, "eighth request", full_row(), 7)?;
    check(rt, "ninth request", full_row().then(read(1, 0)), 0x82)?;
    check_slot(
        rt,
        "ninth request after slot 3 is collected",
        full_row().then(step(3)).then(collect(3)).then(read(1, 0)),
        3,
    )
}
