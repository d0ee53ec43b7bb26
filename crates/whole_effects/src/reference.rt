// The effect of each write on a whole record, made at once and word by word, as document 01's tables
// give it. It is written apart from the model's byte rule, and the bursts are held to it.
use edges::State;
use example_text::code_of;

// A row of the table of edges: the words that the edge takes from the mailbox, as ranges of the first
// and the last, and the state that it leads to.
#[derive(Drop)]
struct Row {
    ranges: &'static [(usize, usize)],
    to: State,
}

fn edge_row(ranges: &'static [(usize, usize)], to: State) -> Row {
    Row { ranges, to }
}

fn row_of(op: u16) -> Row {
    match op {
        0x19 => edge_row(&[(0x00, 0xa0)], State::Init),
        0x2d => edge_row(&[(0x04, 0x4c)], State::Init),
        0x1a => edge_row(&[(0x04, 0x4c), (0x84, 0x84)], State::Rtr),
        0x1b => edge_row(&[(0x20, 0x28), (0x6c, 0x6c), (0x7c, 0x7c)], State::Rts),
        0x1c => edge_row(&[(0x20, 0x28)], State::Rts),
        0x1d => edge_row(&[(0x98, 0x98)], State::Rts),
        0x1f => edge_row(&[], State::Sqd),
        0x38 => edge_row(&[(0x20, 0x4c), (0x98, 0x98)], State::Sqd),
        0x20 => edge_row(&[(0x20, 0x4c), (0x98, 0x98)], State::Rts),
        // 0x1e
        _ => edge_row(&[], State::Err),
    }
}

// The mailbox's big-endian word at offset w, and 0 past the end.
fn word(mailbox: &[u8], w: usize) -> u32 {
    let Some(rest) = mailbox.get(w..) else {
        return 0;
    };
    match rest.first_chunk() {
        Some(bytes) => u32::from_be_bytes(*bytes),
        None => 0,
    }
}

// Puts v into the record's word at offset w, beside the bits of it that `keep` keeps.
fn put(record: &mut [u8], w: usize, keep: u32, v: u32) {
    let Some(rest) = record.get_mut(w..) else {
        return;
    };
    let Some(bytes) = rest.first_chunk_mut() else {
        return;
    };
    let old = u32::from_be_bytes(*bytes);
    *bytes = (old & keep | v).to_be_bytes();
}

// Takes the mailbox's words from offset `first` to offset `last`, both included.
fn take(record: &mut [u8], mailbox: &[u8], first: usize, last: usize) {
    for w in (first..=last).step_by(4) {
        put(record, w, 0, word(mailbox, w));
    }
}

// Zeroes the record's words from 00h to `last`: an empty mailbox has 0 everywhere.
fn zero(record: &mut [u8], last: usize) {
    take(record, b"", 0x00, last);
}

// The state is bits 31:28 of word 00h.
fn put_state(record: &mut [u8], to: State) {
    put(record, 0x00, 0x0fff_ffff, u32::from(code_of(to)) << 28);
}

fn edge(op: u16, record: &mut [u8], mailbox: &[u8]) {
    let row = row_of(op);
    for (first, last) in row.ranges {
        take(record, mailbox, *first, *last);
    }
    put_state(record, row.to);
}

// The words to `last` are stored, all else is 0, and byte 63 is 1.
fn to_hardware(record: &mut [u8], mailbox: &[u8], last: usize) {
    zero(record, 0x3c);
    take(record, mailbox, 0x00, last);
    put(record, 0x3c, 0, 1);
}

// Byte 0Ch is the top byte of its word, as byte 00h is.
fn resize(record: &mut [u8], mailbox: &[u8]) {
    put(record, 0x0c, 0x00ff_ffff, word(mailbox, 0x00) & 0xff00_0000);
    put(record, 0x18, 0, word(mailbox, 0x04));
}

pub fn command(op: u16, record: &mut [u8], mailbox: &[u8]) {
    match op {
        // 56 bytes for MPT and CQ, 48 for EQ.
        0x0d | 0x16 => to_hardware(record, mailbox, 0x34),
        0x13 => to_hardware(record, mailbox, 0x2c),
        0x0f | 0x14 | 0x17 => zero(record, 0x3c),
        0x2c => resize(record, mailbox),
        0x21 => zero(record, 0xfc),
        _ => edge(op, record, mailbox),
    }
}

// An engine write of the PSN in the word at offset w, whose top byte stays.
pub fn engine(w: usize, psn: u32, to: State, record: &mut [u8]) {
    put(record, w, 0xff00_0000, psn);
    put_state(record, to);
}
