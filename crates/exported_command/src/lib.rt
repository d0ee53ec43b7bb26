// The submission of a command, on the bytes that the C interface is lent.
#![tactic(auto)]

ghost use Rattle.std.specs.Prelude.{◌≡◌, ◌≤◌, length};
ghost use Rattle.hcr.specs.Register.{read_of};
ghost use Rattle.rules.specs.Admission.{applied};
ghost use Rattle.rules.specs.Commands.{decide_register};
ghost use Rattle.device_calls.specs.Calls.{world_of, left, submit_left, command_call};
ghost use Rattle.device_calls.specs.Tests.{Tested};

// Decides and applies, on a device that passed the first tests. The row is read once, for the decision.
fn submit_tested(
    dev: &mut [u8],
    store: &mut [u8],
    room: &mut [u8],
    bytes: &[u8],
    mail: &[u8],
) -> u32
    requires { (Tested dev.old store.old room.old) × (28 ≤ length bytes.now) }
    ensures { left result dev.new store.new room.new
        ≡ submit_left dev.old (applied (world_of dev.old store.old room.old)
        mail.now (decide_register (world_of dev.old store.old room.old)
        mail.now (read_of bytes.now))) }
{
    let hca = device_readers::read_hca(dev);
    let decision = deciding_commands::decide_register(
        hca,
        device_readers::read_row(dev),
        store,
        mail,
        hcr_reader::read(bytes),
    );
    exported_apply::apply(hca, dev, store, room, mail, decision)
}

// Submits a command: its 28 bytes, and its mailbox. Fewer bytes get 0x83 whatever else is wrong: the
// same number as the lengths that are tested with them.
pub fn submit_command(
    dev: &mut [u8],
    store: &mut [u8],
    room: &mut [u8],
    bytes: &[u8],
    mail: &[u8],
) -> u32
    ensures { left result dev.new store.new room.new
        ≡ command_call dev.old store.old room.old bytes.now mail.now }
{
    if bytes.len() < 28 {
        return 0x83;
    }
    let refused = device_tests::refusal(dev, store.len(), room.len());
    if refused != 0 {
        return refused;
    }
    submit_tested(dev, store, room, bytes, mail)
}
