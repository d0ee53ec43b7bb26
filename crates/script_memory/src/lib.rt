// A script's lines on memory: how much is lent, and what somebody reads and writes there.
#![tactic(auto)]

ghost use Rattle.std.specs.Prelude.{◌≡◌};
ghost use Rattle.script_memory.specs.Lending.{fresh_of};

use script_bytes::front;
use script_keywords::Memory;
use script_lines::{LineError, LineResult};
use script_words::{same, word, words};
use std::io;

// Bytes of room that are there, whatever is lent of them.
pub const ROOM: usize = 4096;

// How much is lent of row, room and store, and the bytes of store that are there.
#[derive(Clone, Copy)]
pub struct Lent {
    pub row: usize,
    pub room: usize,
    pub store: usize,
    pub there: usize,
}

// What a line on memory leaves of the device.
#[derive(Drop)]
pub enum Device {
    Same,
    // Another one, which is fresh.
    Fresh,
}

// What `lend` lends of a store of this many bytes.
pub fn fresh(there: usize) -> Lent
    ensures { result ≡ fresh_of there }
{
    Lent {
        row: burst_table::SLOTS,
        room: burst_table::ROOM,
        store: there,
        there,
    }
}

// `lend N B`, where N is at most the bytes that the program has.
fn lend(line: &[u8], store: &mut [u8], room: &mut [u8]) -> LineResult<Lent> {
    let read = script_lines::numbers(line, 1, 2).ok_or(LineError::Format)?;
    let there = read[0] as usize;
    let value = u8::try_from(read[1]).map_err(|_| LineError::Format)?;
    let Some(lent) = store.get_mut(..there) else {
        return Err(LineError::Format);
    };
    lent.fill(value);
    room.fill(value);
    Ok(fresh(there))
}

// The one number of a line, if it is at most `most`.
fn only_number(line: &[u8], most: usize) -> LineResult<usize> {
    let n = script_lines::numbers(line, 1, 1).ok_or(LineError::Format)?[0] as usize;
    if most < n {
        return Err(LineError::Format);
    }
    Ok(n)
}

// Puts the bytes that a word stands for from `at` on, if they are within what is there.
fn put(bytes: &mut [u8], at: usize, word: &[u8]) -> LineResult<()> {
    let n = script_bytes::count(word).ok_or(LineError::Format)?;
    let Some(part) = bytes.get_mut(at..at.saturating_add(n)) else {
        return Err(LineError::Format);
    };
    script_bytes::fill(word, part);
    Ok(())
}

// `poke store OFF BYTES` and `poke room OFF BYTES`.
fn poke(lent: Lent, line: &[u8], store: &mut [u8], room: &mut [u8]) -> LineResult<()> {
    if words(line) != 4 {
        return Err(LineError::Format);
    }
    let at = script_numbers::number(word(line, 2), 0xffffffff).ok_or(LineError::Format)? as usize;
    if same(word(line, 1), b"store") {
        let there = front(lent.there, store);
        return put(&mut store[..there], at, word(line, 3));
    }
    if same(word(line, 1), b"room") {
        return put(room, at, word(line, 3));
    }
    Err(LineError::Format)
}

// `peek store OFF LEN` and `peek room OFF LEN`: the bytes.
fn peek<'a>(lent: Lent, line: &[u8], store: &'a [u8], room: &'a [u8]) -> LineResult<&'a [u8]> {
    let read = script_lines::numbers(line, 2, 2).ok_or(LineError::Format)?;
    let at = read[0] as usize;
    let end = at + read[1] as usize;
    let there = front(lent.there, store);
    let found = if same(word(line, 1), b"store") {
        store[..there].get(at..end)
    } else if same(word(line, 1), b"room") {
        room.get(at..end)
    } else {
        None
    };
    found.ok_or(LineError::Format)
}

// `digest`.
fn digest(rt: &impl Print, lent: Lent, store: &[u8], room: &[u8]) -> io::Result<()> {
    let there = front(lent.there, store);
    let store = checksums::adler32(&store[..there]);
    let room = checksums::adler32(room);
    println!(rt; "store {store:#x} room {room:#x}")
}

// Runs a line on memory.
pub fn run(
    rt: &impl Print,
    memory: Memory,
    lent: &mut Lent,
    line: &[u8],
    store: &mut [u8],
    room: &mut [u8],
    answers: bool,
) -> LineResult<Device> {
    match memory {
        Memory::Lend => {
            *lent = lend(line, store, room)?;
            script_print::ok(rt, answers)?;
            return Ok(Device::Fresh);
        }
        Memory::RowLength => lent.row = only_number(line, 9)?,
        Memory::RoomLength => lent.room = only_number(line, ROOM)?,
        Memory::StoreLength => lent.store = only_number(line, lent.there)?,
        Memory::Poke => poke(*lent, line, store, room)?,
        Memory::Peek => {
            let bytes = peek(*lent, line, store, room)?;
            if answers {
                script_print::bytes(rt, bytes)?;
                script_print::end(rt)?;
            }
            return Ok(Device::Same);
        }
        Memory::Digest => {
            if words(line) != 1 {
                return Err(LineError::Format);
            }
            if answers {
                digest(rt, *lent, store, room)?;
            }
            return Ok(Device::Same);
        }
    }
    script_print::ok(rt, answers)?;
    Ok(Device::Same)
}
