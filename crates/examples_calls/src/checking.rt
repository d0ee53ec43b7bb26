// An example, run on a device: what its last call answers, or leaves, is printed beside what the documents give.
use crate::calls::{Call, read};
use crate::device::Device;
use std::{fmt, io};

pub fn check(rt: &impl Print, label: &str, device: Device, given: u64) -> io::Result<()> {
    example_text::check_number(rt, label, u64::from(device.number()), given)
}

// A call while closed, while open, and with queue pair 7 in RTR.
pub fn while_closed(rt: &impl Print, label: &str, last: Call, given: u64) -> io::Result<()> {
    check(rt, label, Device::closed().then(last), given)
}

pub fn while_open(rt: &impl Print, label: &str, last: Call, given: u64) -> io::Result<()> {
    check(rt, label, Device::open().then(last), given)
}

pub fn in_rtr(rt: &impl Print, label: &str, last: Call, given: u64) -> io::Result<()> {
    check(rt, label, Device::ready().then(last), given)
}

// A call after request 1 on queue pair 0, which runs in slot 0.
pub fn beside_read(rt: &impl Print, label: &str, last: Call, given: u64) -> io::Result<()> {
    check(rt, label, Device::open().then(read(1, 0)).then(last), given)
}

// The slot of an acceptance. A refused request has none.
#[derive(Clone, Copy, PartialEq, Eq)]
struct Accepted(Option<usize>);

impl fmt::Display for Accepted {
    fn fmt<W: fmt::Write>(&self, f: &mut fmt::Formatter<W>) -> fmt::Result {
        match self.0 {
            Some(slot) => write!(f, "accepted in slot {slot}"),
            None => write!(f, "not accepted"),
        }
    }
}

pub fn check_slot(rt: &impl Print, label: &str, device: Device, given: usize) -> io::Result<()> {
    example_text::check(rt, label, Accepted(device.slot()), Accepted(Some(given)))
}

// A word of a record, in all its digits.
#[derive(Clone, Copy, PartialEq, Eq)]
struct Word(u32);

impl fmt::Display for Word {
    fn fmt<W: fmt::Write>(&self, f: &mut fmt::Formatter<W>) -> fmt::Result {
        let word = self.0;
        write!(f, "0x{word:08x}")
    }
}

pub fn check_word(rt: &impl Print, label: &str, device: Device, given: u32) -> io::Result<()> {
    example_text::check(rt, label, Word(device.word_84()), Word(given))
}
