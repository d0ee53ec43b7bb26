// Which two slots do not go together.
#![tactic(auto)]

ghost use Rattle.std.specs.Prelude.{◌≡◌};
ghost use Rattle.possible.specs.Possible.{both_commands, slots_clash, pair_wrong};

use slots::{Slot, Status};

// Whether two slots both have a command.
fn both_commands(a: Slot, b: Slot) -> bool
    ensures { result ≡ both_commands a b }
{
    if !slot_tests::has_command(a) {
        return false;
    }
    slot_tests::has_command(b)
}

// Whether the requests of two slots run and clash.
fn slots_clash(a: Slot, b: Slot) -> bool
    ensures { result ≡ slots_clash a b }
{
    let status = a.status;
    match status {
        Status::Free => false,
        Status::Running(_, request) => slot_clashes::slot_holds(b, request),
        Status::Finished(_, _) => false,
    }
}

// Whether two slots do not go together.
pub fn pair_wrong(a: Slot, b: Slot) -> bool
    ensures { result ≡ pair_wrong a b }
{
    if both_commands(a, b) {
        return true;
    }
    slots_clash(a, b)
}
