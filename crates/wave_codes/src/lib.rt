// What waves tell by a number: what a line of a script does, and the row of a refusal.
#![tactic(auto)]

ghost use Rattle.std.specs.Prelude.{◌≡◌};
ghost use Rattle.wave_codes.specs.Codes.{call_line, memory_line, device_line, line_code, denial_row, refusal_row, row_code};

use checks::Denial;
use rules::Refusal;
use script_keywords::{Call, Device, Keyword, Memory};

fn call_line(call: Call) -> u64
    ensures { result ≡ call_line call }
{
    match call {
        Call::Command => 1,
        Call::Engine => 2,
        Call::Step => 3,
        Call::Collect => 4,
        Call::Reset => 5,
    }
}

fn memory_line(memory: Memory) -> u64
    ensures { result ≡ memory_line memory }
{
    match memory {
        Memory::Lend => 6,
        Memory::RowLength => 7,
        Memory::RoomLength => 8,
        Memory::StoreLength => 9,
        Memory::Poke => 10,
        Memory::Peek => 0,
        Memory::Digest => 0,
    }
}

fn device_line(device: Device) -> u64
    ensures { result ≡ device_line device }
{
    match device {
        Device::State => 11,
        Device::Slot => 12,
        Device::Show => 0,
        Device::Why => 0,
    }
}

// What a line of a script does: a call has a number from 1 to 5, a line that only tells something has 0.
pub fn line_code(keyword: Keyword) -> u64
    ensures { result ≡ line_code keyword }
{
    match keyword {
        Keyword::Call(call) => call_line(call),
        Keyword::Memory(memory) => memory_line(memory),
        Keyword::Device(device) => device_line(device),
        Keyword::Unknown => 0,
    }
}

fn denial_row(denial: Denial) -> u64
    ensures { result ≡ denial_row denial }
{
    match denial {
        Denial::Edge => 14,
        Denial::ServiceType => 15,
        Denial::Owner => 16,
        Denial::Name => 17,
    }
}

fn refusal_row(refusal: Refusal) -> u64
    ensures { result ≡ refusal_row refusal }
{
    match refusal {
        Refusal::BadLength => 1,
        Refusal::Impossible => 2,
        Refusal::NoRequest => 3,
        Refusal::StillRunning => 4,
        Refusal::ShortBuffer => 5,
        Refusal::Malformed => 6,
        Refusal::NotServed => 7,
        Refusal::BadSystemState => 8,
        Refusal::Busy => 9,
        Refusal::BadParameter => 10,
        Refusal::ShortMailbox => 11,
        Refusal::BadContent => 12,
        Refusal::Held => 13,
        Refusal::Denied(denial) => denial_row(denial),
        Refusal::Full => 18,
    }
}

// The row of a refusal, from top to bottom; 0 for none.
pub fn row_code(cause: Option<Refusal>) -> u64
    ensures { result ≡ row_code cause }
{
    match cause {
        None => 0,
        Some(refusal) => refusal_row(refusal),
    }
}
