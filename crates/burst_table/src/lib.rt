// The burst table: how many bursts a request moves, and where each of them lies; and the sizes of bursts and room.
#![tactic(auto)]

ghost use Rattle.std.specs.Prelude.{◌≡◌, [], ◌*◌, ◌<◌, length, get_or};
ghost use Rattle.burst_table.specs.Sizes.{burst_size, slot_count, slot_start};
ghost use Rattle.burst_table.specs.Bursts.{psn_place, command_bursts, engine_bursts, total_of, bursts_by, state_and_psn, offset_of};

use requests::{Command, EngineRequest, PsnField, Request};

// The bytes of a burst.
pub const BURST: usize = 16;

// The slots of the row.
pub const SLOTS: usize = 8;

// The bytes of one slot's part of the room.
pub const SLOT_ROOM: usize = 384;

// The bytes of the room.
pub const ROOM: usize = SLOTS * SLOT_ROOM;

// Where slot k's part of the room starts.
pub fn slot_start(k: usize) -> usize
    requires { k < slot_count }
    ensures { result ≡ slot_start k }
{
    k * SLOT_ROOM
}

// Where a PSN's word starts in a queue pair's record.
pub fn psn_place(which: PsnField) -> usize
    ensures { result ≡ psn_place which }
{
    match which {
        PsnField::NextSend => 0x6c,
        PsnField::LastAcked => 0x7c,
        PsnField::Expected => 0x84,
    }
}

// All bursts of the command's record.
fn command_total(command: Command) -> u8
    ensures { result ≡ length (command_bursts command) }
{
    match command {
        Command::Sw2Hw(_) => 4,
        Command::Hw2Sw(_) => 4,
        Command::ResizeCq(_) => 4,
        Command::QueryQp(_) => 16,
        Command::ModifyQp(_, _) => 16,
    }
}

fn engine_total(engine: EngineRequest) -> u8
    ensures { result ≡ length (engine_bursts engine) }
{
    match engine {
        EngineRequest::ReadState(_) => 1,
        EngineRequest::ReadNext(_) => 2,
        EngineRequest::ReadAll(_) => 16,
        EngineRequest::Write(_, _, _, _) => 2,
        EngineRequest::ReadJoined(_, _, _) => 24,
    }
}

// How many bursts a request moves.
pub fn total(request: Request) -> u8
    ensures { result ≡ total_of request }
{
    match request {
        Request::Command(command) => command_total(command),
        Request::Engine(engine) => engine_total(engine),
    }
}

// Burst m of a request that moves all bursts of its records.
fn whole_offset(m: u8) -> usize
    ensures { result ≡ m * burst_size }
{
    m as usize * BURST
}

// The state's burst, then the PSN's.
fn psn_offset(which: PsnField, m: u8) -> usize
    requires { m < 2 }
    ensures { result ≡ get_or (bursts_by (state_and_psn which) []) m 0 * burst_size }
{
    if m == 0 {
        return 0;
    }
    psn_place(which) / BURST * BURST
}

fn engine_offset(engine: EngineRequest, m: u8) -> usize
    requires { m < length (engine_bursts engine) }
    ensures { result ≡ get_or (engine_bursts engine) m 0 * burst_size }
{
    match engine {
        EngineRequest::ReadState(_) => 0,
        EngineRequest::ReadNext(_) => psn_offset(PsnField::NextSend, m),
        EngineRequest::ReadAll(_) => whole_offset(m),
        EngineRequest::Write(which, _, _, _) => psn_offset(which, m),
        EngineRequest::ReadJoined(_, _, _) => whole_offset(m),
    }
}

// Where burst m of a request starts in its records, one behind the other.
pub fn offset(request: Request, m: u8) -> usize
    requires { m < total_of request }
    ensures { result ≡ offset_of request m }
{
    match request {
        Request::Command(_) => whole_offset(m),
        Request::Engine(engine) => engine_offset(engine, m),
    }
}
