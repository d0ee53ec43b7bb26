// What is decided of a command whose register is read, from its op and its mailbox; nothing is changed.
#![tactic(auto)]

ghost use Rattle.std.specs.Prelude.{◌≡◌, List, ℕ};
ghost use Rattle.rules.specs.World.{world};
ghost use Rattle.rules.specs.Commands.{decide_init, decide_found, decide_op};
ghost use Rattle.deciding.specs.Ready.{OpenFits};
ghost use Rattle.deciding_ops.specs.Ready.{CommandStored};

use commands::{CommandAsked, Op};
use context::{InitError, Logs};
use hcr::HcrCommand;
use possible::Hca;
use requests::Request;
use rules::{Decision, Refusal};
use slots::Slot;

// What INIT_HCA's mailbox says.
fn decide_init(found: Result<Logs, InitError>) -> Result<Decision, Refusal>
    ensures { result ≡ decide_init found }
{
    Ok(Decision::Open(found?))
}

// The modifiers of a command. Three commands are done at once; every other is a request on a record.
fn decide_found(
    hca: Hca,
    row: [Slot; 8],
    store: &[u8],
    mail: &[u8],
    found: Option<CommandAsked>,
) -> Result<Decision, Refusal>
    requires { CommandStored hca.logs store.now found }
    ensures { (room : List ℕ) → result ≡ decide_found (world hca row store.now room) mail.now found }
{
    let Some(asked) = found else {
        return Err(Refusal::BadParameter);
    };
    match asked {
        CommandAsked::InitHca => decide_init(store_tables::read_init(mail, store.len())),
        CommandAsked::CloseHca => Ok(Decision::Close),
        CommandAsked::Nop => Ok(Decision::Nothing),
        CommandAsked::OnRecord(command) => {
            deciding::decide_request(hca, row, store, mail, Request::Command(command))
        }
    }
}

// The op, whether it is served now, and what is under way.
pub fn decide_op(
    hca: Hca,
    row: [Slot; 8],
    store: &[u8],
    mail: &[u8],
    command: HcrCommand,
    found: Option<Op>,
) -> Result<Decision, Refusal>
    requires { OpenFits hca store.now }
    ensures { (room : List ℕ) → result ≡ decide_op (world hca row store.now room) mail.now command found }
{
    let Some(op) = found else {
        return Err(Refusal::NotServed);
    };
    if op_checks::bad_system(hca.open, op) {
        return Err(Refusal::BadSystemState);
    }
    if op_checks::is_busy(row, op) {
        return Err(Refusal::Busy);
    }
    let asked = commands::read_command(op, command.op_modifier, command.in_modifier, hca.logs);
    decide_found(hca, row, store, mail, asked)
}
