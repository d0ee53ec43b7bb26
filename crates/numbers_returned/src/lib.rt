// Document 01's number of each answer, for callers that speak in numbers.
#![tactic(auto)]

ghost use Rattle.std.specs.Prelude.{◌≡◌};
ghost use Rattle.checks.specs.Verdicts.{denial_number};
ghost use Rattle.rules.specs.Numbers.{refusal_number, number_of, submit_number, step_number, collect_number, reset_number};

use checks::Denial;
use rules::{Refusal, Submission};

// 0 means done or accepted.
const DONE: u8 = 0;

fn denial_number(cause: Denial) -> u8
    ensures { result ≡ denial_number cause }
{
    match cause {
        Denial::Edge => 0x85,
        Denial::ServiceType => 0x88,
        Denial::Owner => 0x85,
        Denial::Name => 3,
    }
}

pub fn refusal_number(cause: Refusal) -> u8
    ensures { result ≡ refusal_number cause }
{
    match cause {
        Refusal::BadLength => 0x83,
        Refusal::Impossible => 0x87,
        Refusal::NoRequest => 0x84,
        Refusal::StillRunning => 0x86,
        Refusal::ShortBuffer => 0x83,
        Refusal::Malformed => 3,
        Refusal::NotServed => 2,
        Refusal::BadSystemState => 4,
        Refusal::Busy => 0x81,
        Refusal::BadParameter => 3,
        Refusal::ShortMailbox => 0x83,
        Refusal::BadContent => 3,
        Refusal::Held => 0x81,
        Refusal::Denied(denial) => denial_number(denial),
        Refusal::Full => 0x82,
    }
}

// The number of a call's answer, whatever it gives beside it.
pub fn number<T: Drop>(answer: Result<T, Refusal>) -> u8
    ensures { result ≡ number_of answer }
{
    match answer {
        Ok(_) => DONE,
        Err(cause) => refusal_number(cause),
    }
}

#[tactic(auto, using(crate::proofs::Each::of_submit))]
pub fn submit_number(answer: Result<Submission, Refusal>) -> u8
    ensures { result ≡ submit_number answer }
{
    number::<Submission>(answer)
}

#[tactic(auto, using(crate::proofs::Each::of_step))]
pub fn step_number(answer: Result<u8, Refusal>) -> u8
    ensures { result ≡ step_number answer }
{
    number::<u8>(answer)
}

#[tactic(auto, using(crate::proofs::Each::of_collect))]
pub fn collect_number(answer: Result<usize, Refusal>) -> u8
    ensures { result ≡ collect_number answer }
{
    number::<usize>(answer)
}

#[tactic(auto, using(crate::proofs::Each::of_reset))]
pub fn reset_number(answer: Result<(), Refusal>) -> u8
    ensures { result ≡ reset_number answer }
{
    number::<()>(answer)
}
