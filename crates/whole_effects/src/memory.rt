// The memory that the writes are tried on, and what is printed of it.
ghost use Rattle.std.specs.Prelude.{◌≤◌};

use std::io;

// The bytes of the store. The record starts at one of them, so that other bytes stand before and
// behind it.
pub const STORE: usize = 768;

pub const RECORD_AT: usize = 256;

// The slot's part of the room that has the mailbox: slot 1's.
pub const PART_AT: usize = burst_table::SLOT_ROOM;

// The bytes of a mailbox, the longest that a command has.
pub const MAILBOX: usize = 164;

// Every byte of the store outside the record.
const OUTSIDE: u8 = 0x47;

// How long a record is: a queue pair's has 256 bytes, the others have 64.
#[derive(Clone, Copy)]
pub enum Size {
    Qp,
    Other,
}

impl Size {
    // Where the record ends in the store.
    pub fn end(self) -> usize
        ensures { (256 ≤ result) × (result ≤ 768) }
    {
        match self {
            Size::Qp => RECORD_AT + 256,
            Size::Other => RECORD_AT + 64,
        }
    }
}

// The first byte is `first`, each next one `step` more, modulo 256.
fn fill(bytes: &mut [u8], first: u8, step: u8) {
    let mut next = first;
    for byte in bytes {
        *byte = next;
        next = next.wrapping_add(step);
    }
}

// A store with a record. The state that it starts with, 10, is none of document 01's.
pub fn store_with_record(size: Size) -> [u8; STORE] {
    let mut store = [OUTSIDE; STORE];
    fill(&mut store[RECORD_AT..size.end()], 0xa3, 7);
    store
}

// A mailbox, each byte other than the record's byte at the same offset.
pub fn fill_mailbox(mailbox: &mut [u8]) {
    fill(mailbox, 0xe5, 11);
}

// A label and the bytes in hex, on one line.
pub fn print_bytes(rt: &impl Print, label: &str, bytes: &[u8]) -> io::Result<()> {
    print!(rt; "{label}")?;
    for byte in bytes {
        print!(rt; "{byte:02x}")?;
    }
    println!(rt)
}

// Whether a byte outside the record changed.
fn has_stray(store: &[u8; STORE], size: Size) -> bool {
    store[..RECORD_AT]
        .iter()
        .chain(&store[size.end()..])
        .any(|byte| *byte != OUTSIDE)
}

// The record that the bursts left and the one that the reference left, whether they are the same,
// and whether the bursts left the bytes outside it.
pub fn report(
    rt: &impl Print,
    moved: &[u8; STORE],
    whole: &[u8; STORE],
    size: Size,
) -> io::Result<()> {
    let end = size.end();
    print_bytes(rt, "bursts ", &moved[RECORD_AT..end])?;
    print_bytes(rt, "whole  ", &whole[RECORD_AT..end])?;
    if has_stray(moved, size) {
        return println!(rt; "a byte outside the record CHANGED");
    }
    let same = if moved == whole { "same" } else { "DIFFERENT" };
    println!(rt; "{same}, every byte outside the record stayed")
}
