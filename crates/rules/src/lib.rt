// The answers of the model's five calls, and what a submission decides. What each call answers and
// leaves is defined in specs/.
#![tactic(auto)]

ghost use Rattle.std.specs.Prelude.{◌≡◌};
ghost use Rattle.rules.specs.Causes.{of_read_error, of_init_error};
ghost use Rattle.rules.specs.declared.Refusal.TheVariants.{Denied};

use checks::Denial;
use context::{InitError, Logs};
use hcr::ReadError;
use requests::Request;

// Why a call is refused, in the order of document 01's table. Two causes may share a number.
#[derive(Clone, Copy, Debug, PartialEq, Eq)]
pub enum Refusal {
    // The row is not 8 long, the room is too short, the store's length is not the one that INIT_HCA
    // was lent, or the HCR is below 28 bytes.
    BadLength,
    // The state handed in is impossible.
    Impossible,
    // There is no such slot, or it is free, or a step names a finished one.
    NoRequest,
    // A running slot is collected.
    StillRunning,
    // The buffer is shorter than the answer.
    ShortBuffer,
    // The HCR is not well formed, or asks for an event.
    Malformed,
    // The op or request number is not served.
    NotServed,
    // INIT_HCA while open, or anything else but NOP while closed.
    BadSystemState,
    // Another command is uncollected, or CLOSE_HCA finds an occupied slot.
    Busy,
    // op_modifier, in_modifier, index, PSN or state is wrong.
    BadParameter,
    // The mailbox is shorter than needed.
    ShortMailbox,
    // The mailbox content is wrong.
    BadContent,
    // A record is held against this request.
    Held,
    // The record's state does not permit it: the edge, the edge for its service type, the owner, or a
    // name in it that is out of range.
    Denied(Denial),
    // All eight slots are occupied.
    Full,
}

impl From<ReadError> for Refusal {
    ghost from_gives = { λ error cause. cause ≡ of_read_error error };

    fn from(error: ReadError) -> Refusal {
        match error {
            ReadError::Short => Refusal::BadLength,
            ReadError::Malformed => Refusal::Malformed,
        }
    }
}

impl From<InitError> for Refusal {
    ghost from_gives = { λ error cause. cause ≡ of_init_error error };

    fn from(error: InitError) -> Refusal {
        match error {
            InitError::ShortMailbox => Refusal::ShortMailbox,
            InitError::OutOfRange => Refusal::BadContent,
        }
    }
}

impl From<Denial> for Refusal {
    ghost from_gives = { λ denial cause. cause ≡ Denied denial };

    fn from(denial: Denial) -> Refusal {
        Refusal::Denied(denial)
    }
}

// What is decided of a submission from what is lent, before anything is changed. The answer of the other
// calls has no type of its own: a step answers the bursts still to move, a collection how many bytes of
// the buffer hold the answer, and a reset nothing, each or a refusal.
#[derive(Clone, Copy)]
pub enum Decision {
    // NOP: done at once, and nothing changes.
    Nothing,
    // CLOSE_HCA.
    Close,
    // INIT_HCA, with the logarithms of the counts.
    Open(Logs),
    // The request is accepted into this slot.
    Take(Request, usize),
}

// A submission that is not refused: a command done at once, or a request accepted into a slot.
#[derive(Clone, Copy)]
pub enum Submission {
    Done,
    Accepted(usize),
}
