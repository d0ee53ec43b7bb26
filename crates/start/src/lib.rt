// What a caller begins with: a closed state. The empty row is `rows::empty_row`; a program that lends the
// front of nine slots begins with nine.
#![tactic(auto)]

ghost use Rattle.std.specs.Prelude.{◌≡◌};
ghost use Rattle.start.specs.Start.{closed_state, nine_free};

use context::Logs;
use possible::Hca;
use slots::{Slot, Status};

// Closed, with no counts and no length remembered; INIT_HCA sets both.
pub fn closed_state() -> Hca
    ensures { result ≡ closed_state }
{
    Hca {
        open: false,
        logs: Logs {
            qps: 0,
            cqs: 0,
            eqs: 0,
            mpts: 0,
        },
        store_len: 0,
    }
}

// Nine free slots.
pub fn nine_free() -> [Slot; 9]
    ensures { result ≡ nine_free }
{
    [Slot {
        status: Status::Free,
    }; 9]
}
