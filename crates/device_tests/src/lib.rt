// The first tests of every exported call but reset: the lengths of what is lent, and the state.
#![tactic(auto)]

ghost use Rattle.std.specs.Prelude.{◌≡◌};
ghost use Rattle.device_calls.specs.Tests.{first_number};

// Their number: 0x83 or 0x87, or 0 where they are passed.
pub fn refusal(dev: &[u8], store: usize, room: usize) -> u32
    ensures { result ≡ first_number dev.now store room }
{
    if dev.len() != 288 {
        return 0x83;
    }
    let hca = device_readers::read_hca(dev);
    if lengths::lengths_wrong(hca, store, room) {
        return 0x83;
    }
    if judging::device_impossible(hca, dev) {
        return 0x87;
    }
    0
}
