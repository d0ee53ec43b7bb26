// The C interface: the functions that libecgslope.a exports, on numbers and lent bytes. What each does
// stands in the crate that it calls; include/ecgslope.h declares them for C. None has a `requires`: any
// bytes may be lent.
#![tactic(auto)]

ghost use Rattle.std.specs.Prelude.{◌≡◌};
ghost use Rattle.device_calls.specs.Calls.{left, command_call, engine_call, step_call, taken, collect_call, emptied, reset_call};
ghost use Rattle.register_calls.specs.Calls.{left as kept, read_call, write_call};

// Submits a command: its 28 bytes, and its mailbox.
#[unsafe(no_mangle)]
pub extern "C" fn ecgslope_submit_command(
    device: &mut [u8],
    store: &mut [u8],
    room: &mut [u8],
    hcr: &[u8],
    mailbox: &[u8],
) -> u32
    ensures { left result device.new store.new room.new
        ≡ command_call device.old store.old room.old hcr.now mailbox.now }
{
    exported_command::submit_command(device, store, room, hcr, mailbox)
}

// Submits an engine request.
#[unsafe(no_mangle)]
pub extern "C" fn ecgslope_submit_engine(
    device: &mut [u8],
    store: &mut [u8],
    room: &mut [u8],
    number: u32,
    index: u32,
    psn: u32,
    state: u8,
) -> u32
    ensures { left result device.new store.new room.new
        ≡ engine_call device.old store.old room.old number index psn state }
{
    exported_engine::submit_engine(device, store, room, number, index, psn, state)
}

// One burst of the request in a slot.
#[unsafe(no_mangle)]
pub extern "C" fn ecgslope_step(
    device: &mut [u8],
    store: &mut [u8],
    room: &mut [u8],
    slot: usize,
) -> u32
    ensures { left result device.new store.new room.new
        ≡ step_call device.old store.old room.old slot }
{
    exported_step::step(device, store, room, slot)
}

// Frees a finished slot, and writes its request's answer to the front of the buffer.
#[unsafe(no_mangle)]
pub extern "C" fn ecgslope_collect(
    device: &mut [u8],
    store: &[u8],
    room: &[u8],
    slot: usize,
    out: &mut [u8],
) -> u32
    ensures { taken result device.new out.new
        ≡ collect_call device.old store.now room.now slot out.old }
{
    exported_collect::collect(device, store, room, slot, out)
}

// Empties all slots and closes, whatever the device has.
#[unsafe(no_mangle)]
pub extern "C" fn ecgslope_reset(device: &mut [u8], store: &[u8], room: &[u8]) -> u32
    ensures { emptied result device.new ≡ reset_call device.old store.now room.now }
{
    exported_reset::reset(device, store, room)
}

// The command register's fields, from its 28 bytes.
#[unsafe(no_mangle)]
pub extern "C" fn ecgslope_read_register(hcr: &[u8], fields: &mut [u8]) -> u32
    ensures { kept result fields.new ≡ read_call hcr.now fields.old }
{
    register_calls::read_register(hcr, fields)
}

// The command register's 28 bytes, from its fields.
#[unsafe(no_mangle)]
pub extern "C" fn ecgslope_write_register(hcr: &mut [u8], fields: &[u8]) -> u32
    ensures { kept result hcr.new ≡ write_call hcr.old fields.now }
{
    register_calls::write_register(hcr, fields)
}
