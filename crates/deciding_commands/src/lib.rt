// What is decided of a command, from its register bytes and its mailbox; nothing is changed.
#![tactic(auto)]

ghost use Rattle.std.specs.Prelude.{◌≡◌, List, ℕ};
ghost use Rattle.rules.specs.World.{world};
ghost use Rattle.rules.specs.Commands.{decide_register, decide_command};
ghost use Rattle.deciding.specs.Ready.{OpenFits};

use hcr::{HcrCommand, ReadError};
use possible::Hca;
use rules::{Decision, Refusal};
use slots::Slot;

// What the register holds. Submission alone refuses E. The caller has made the first tests: of the
// lengths, and that the state is possible.
pub fn decide_register(
    hca: Hca,
    row: [Slot; 8],
    store: &[u8],
    mail: &[u8],
    read: Result<HcrCommand, ReadError>,
) -> Result<Decision, Refusal>
    requires { OpenFits hca store.now }
    ensures { (room : List ℕ) → result ≡ decide_register (world hca row store.now room) mail.now read }
{
    let command = read?;
    if command.event {
        return Err(Refusal::Malformed);
    }
    deciding_ops::decide_op(
        hca,
        row,
        store,
        mail,
        command,
        commands::read_op(command.op),
    )
}

// What is decided of a command: its register bytes, and its mailbox.
pub fn decide_command(
    hca: Hca,
    row: [Slot; 8],
    store: &[u8],
    room: &[u8],
    bytes: &[u8],
    mail: &[u8],
) -> Result<Decision, Refusal>
    ensures { result ≡ decide_command (world hca row store.now room.now)
        bytes.now mail.now }
{
    if lengths::lengths_wrong(hca, store.len(), room.len()) {
        return Err(Refusal::BadLength);
    }
    if bytes.len() < 28 {
        return Err(Refusal::BadLength);
    }
    if state_checks::is_impossible(hca, row) {
        return Err(Refusal::Impossible);
    }
    decide_register(hca, row, store, mail, hcr_reader::read(bytes))
}
