// Reset, on the bytes that the C interface is lent.
#![tactic(auto)]

ghost use Rattle.std.specs.Prelude.{◌≡◌};
ghost use Rattle.device_calls.specs.Calls.{emptied, reset_call};

use burst_table::ROOM;

// Empties all slots and closes, whatever the device has: no state is tested.
pub fn reset(dev: &mut [u8], store: &[u8], room: &[u8]) -> u32
    ensures { emptied result dev.new ≡ reset_call dev.old store.now room.now }
{
    if dev.len() != 288 {
        return 0x83;
    }
    if room.len() < ROOM {
        return 0x83;
    }
    let hca = device_readers::read_hca(dev);
    let closed = apply_parts::close_hca(hca);
    device_writers::write_header(dev, closed);
    words::fill(dev, 32, 256, 0);
    0
}
