// A script's `slot` line: a slot that the next call is handed.
#![tactic(auto)]

ghost use Rattle.std.specs.Prelude.{◌≡◌};
ghost use Rattle.script_words.specs.Words.{word_at};
ghost use Rattle.script_numbers.specs.Numbers.{number_of};
ghost use Rattle.script_device.specs.Slots.{placed_as, command_slot, engine_slot, free_slot, slot_in};

use requests::Request;
use script_words::{same, word};
use slots::{Slot, Status};

// Which slot a `slot` line names.
pub fn slot_number(line: &[u8]) -> Option<u32>
    ensures { result ≡ number_of 8 (word_at 1 line.now) }
{
    script_numbers::number(word(line, 1), 8)
}

// A slot with this request: running, or finished.
fn placed(how: &[u8], moved: u8, request: Request) -> Option<Slot>
    ensures { result ≡ placed_as how.now moved request }
{
    if same(how, b"running") {
        return Some(Slot {
            status: Status::Running(moved, request),
        });
    }
    if same(how, b"finished") {
        return Some(Slot {
            status: Status::Finished(moved, request),
        });
    }
    None
}

// `slot K running command OP MOD INDEX MOVED`, and likewise `finished`.
#[tactic(auto, unfolding(crate::specs::Slots::command_slot))]
fn command_slot(how: &[u8], read: [u32; 8]) -> Option<Slot>
    ensures { result ≡ command_slot how.now read }
{
    if 0xfff < read[0] {
        return None;
    }
    let modifier = u8::try_from(read[1]).ok()?;
    let moved = u8::try_from(read[3]).ok()?;
    let request = slot_requests::read_command(read[0] as u16, modifier, read[2])?;
    placed(how, moved, request)
}

// `slot K running engine NUMBER INDEX PSN STATE MOVED`, and likewise `finished`; `CQ EQ` stand for
// `PSN STATE` where NUMBER is 7.
#[tactic(auto, unfolding(crate::specs::Slots::engine_slot))]
fn engine_slot(how: &[u8], read: [u32; 8]) -> Option<Slot>
    ensures { result ≡ engine_slot how.now read }
{
    let moved = u8::try_from(read[4]).ok()?;
    let request = slot_requests::read_engine(read[0], read[1], read[2], read[3])?;
    placed(how, moved, request)
}

// `slot K free`.
fn free_slot(line: &[u8]) -> Option<Slot>
    ensures { result ≡ free_slot line.now }
{
    if script_words::words(line) != 3 {
        return None;
    }
    Some(Slot {
        status: Status::Free,
    })
}

// The slot that a `slot` line hands in.
pub fn read_slot(line: &[u8]) -> Option<Slot>
    ensures { result ≡ slot_in line.now }
{
    if same(word(line, 2), b"free") {
        return free_slot(line);
    }
    if same(word(line, 3), b"command") {
        return command_slot(word(line, 2), script_lines::numbers(line, 4, 4)?);
    }
    if same(word(line, 3), b"engine") {
        return engine_slot(word(line, 2), script_lines::numbers(line, 4, 5)?);
    }
    None
}
