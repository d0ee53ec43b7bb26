// Whether a command's op is refused by itself: it is not served now, or something under way is in its way.
#![tactic(auto)]

ghost use Rattle.std.specs.Prelude.{◌≡◌};
ghost use Rattle.rules.specs.Commands.{bad_system, is_close, busy};

use commands::Op;
use slots::Slot;

// Whether an op is not served while open, or while closed.
pub fn bad_system(open: bool, op: Op) -> bool
    ensures { result ≡ bad_system «open» op }
{
    match op {
        Op::InitHca => open,
        Op::CloseHca => !open,
        Op::Nop => false, // always served
        Op::Sw2Hw(_) => !open,
        Op::Hw2Sw(_) => !open,
        Op::ResizeCq => !open,
        Op::QueryQp => !open,
        Op::ModifyQp(_) => !open,
    }
}

fn is_close(op: Op) -> bool
    ensures { result ≡ is_close op }
{
    match op {
        Op::InitHca => false,
        Op::CloseHca => true,
        Op::Nop => false,
        Op::Sw2Hw(_) => false,
        Op::Hw2Sw(_) => false,
        Op::ResizeCq => false,
        Op::QueryQp => false,
        Op::ModifyQp(_) => false,
    }
}

// Whether another command is uncollected or, for CLOSE_HCA, a slot is occupied.
pub fn is_busy(row: [Slot; 8], op: Op) -> bool
    ensures { result ≡ busy row op }
{
    if row_commands::command_uncollected(row) {
        return true;
    }
    if !is_close(op) {
        return false;
    }
    row_scans::any_occupied(row)
}
