// The scan of a row for a command.
#![tactic(auto)]

ghost use Rattle.std.specs.Prelude.{◌≡◌, ◌≤◌, drop};
ghost use Rattle.slots.specs.Slots.{has_command};
ghost use Rattle.rows.specs.Rows.{any_slot};

use slots::Slot;

// Whether a slot from `start` on has an uncollected command.
pub fn command_from(row: [Slot; 8], start: usize) -> bool
    requires { start ≤ 8 }
    ensures { result ≡ any_slot has_command (drop start row) }
{
    for i in start..8 {
        if slot_tests::has_command(row[i]) {
            return true;
        }
    }
    false
}

// Whether a command is uncollected.
pub fn command_uncollected(row: [Slot; 8]) -> bool
    ensures { result ≡ any_slot has_command row }
{
    command_from(row, 0)
}
