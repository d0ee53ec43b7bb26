// The rows that a record decides: that it is held, which records it names (document 02, wish 2), and its state or owner.
use crate::calls::{Unusual, command, modified, read, step, write};
use crate::checking::{beside_read, check, in_rtr, while_open};
use crate::device::Device;
use edges::State;
use std::io;

// In RESET the write would get 0x85, but the hold is tested first.
pub fn holds(rt: &impl Print) -> io::Result<()> {
    beside_read(rt, "request 6 on a QP that is read", read(6, 0), 0)?;
    beside_read(
        rt,
        "request 3 on a QP that is read",
        write(3, 0, 0, State::Rts),
        0x81,
    )?;
    check(
        rt,
        "request 1 on a QP that is written",
        Device::ready()
            .then(write(3, 7, 0, State::Rtr))
            .then(read(1, 7)),
        0x81,
    )?;
    check(
        rt,
        "request 1 on a QP after the last burst of a write",
        Device::ready()
            .then(write(3, 7, 0, State::Rtr))
            .repeat(step(0), 2)
            .then(read(1, 7)),
        0,
    )
}

// The queue pair's hold, then the completion queue's name and hold, then the event queue's.
pub fn joined(rt: &impl Print) -> io::Result<()> {
    while_open(rt, "request 7 on QP 7", read(7, 7), 0)?;
    while_open(rt, "request 7 on QP 8", read(7, 8), 3)?;
    check(
        rt,
        "request 7 on a QP that is written",
        Device::ready()
            .then(write(3, 7, 0, State::Rtr))
            .then(read(7, 7)),
        0x81,
    )?;
    check(
        rt,
        "request 7 on a QP that names CQ 4",
        Device::open()
            .then(command(0x19, 0).but(Unusual::Cq4))
            .repeat(step(0), 16)
            .then(read(7, 0)),
        3,
    )?;
    check(
        rt,
        "request 7 on a QP whose CQ is written",
        Device::open().then(command(0x16, 0)).then(read(7, 0)),
        0x81,
    )?;
    check(
        rt,
        "request 7 on a QP whose CQ names EQ 2",
        Device::open()
            .then(command(0x16, 0).but(Unusual::Eq2))
            .repeat(step(0), 4)
            .then(read(7, 0)),
        3,
    )?;
    check(
        rt,
        "request 7 on a QP whose EQ is written",
        Device::open().then(command(0x13, 0)).then(read(7, 0)),
        0x81,
    )
}

// A request 7 holds all its three records: CQ 0 and EQ 0 are named by records that are all zero.
pub fn joined_holds(rt: &impl Print) -> io::Result<()> {
    check(
        rt,
        "0x19 beside request 7 on that QP",
        Device::open().then(read(7, 0)).then(command(0x19, 0)),
        0x81,
    )?;
    check(
        rt,
        "SW2HW beside request 7 that names that CQ",
        Device::open().then(read(7, 0)).then(command(0x16, 0)),
        0x81,
    )?;
    check(
        rt,
        "SW2HW beside request 7 that names that EQ",
        Device::open().then(read(7, 0)).then(command(0x13, 0)),
        0x81,
    )?;
    check(
        rt,
        "SW2HW beside request 7 that names another EQ",
        Device::open().then(read(7, 0)).then(command(0x13, 1)),
        0,
    )
}

pub fn denials(rt: &impl Print) -> io::Result<()> {
    while_open(rt, "0x1a in RESET", command(0x1a, 0), 0x85)?;
    while_open(rt, "0x1e in RESET", modified(0x1e, 0, 3), 0x85)?;
    while_open(rt, "0x21 in RESET", modified(0x21, 0, 3), 0x85)?;
    while_open(rt, "request 3 in RESET", write(3, 0, 0, State::Rts), 0x85)?;
    in_rtr(
        rt,
        "request 3 from RTR to SQE of RC",
        write(3, 7, 0, State::Sqe),
        0x85,
    )?;
    check(
        rt,
        "request 3 from RTS to SQE of RC",
        Device::sending().then(write(3, 7, 0, State::Sqe)),
        0x88,
    )?;
    while_open(rt, "SW2HW for MPT 0 of software", command(0x0d, 0), 0)?;
    while_open(rt, "HW2SW for MPT 0 of software", command(0x0f, 0), 0x85)
}
