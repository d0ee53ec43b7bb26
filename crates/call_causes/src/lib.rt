// Why a call was refused, told of all five calls alike.
#![tactic(auto)]

ghost use Rattle.std.specs.Prelude.{◌≡◌};
ghost use Rattle.call_causes.specs.Causes.{cause_of, submit_cause, step_cause, collect_cause, reset_cause};

use rules::{Refusal, Submission};

// The cause, if the call was refused.
pub fn of_answer<T: Drop>(answer: Result<T, Refusal>) -> Option<Refusal>
    ensures { result ≡ cause_of answer }
{
    answer.err()
}

#[tactic(auto, using(crate::proofs::Each::of_submit))]
pub fn of_submit(answer: Result<Submission, Refusal>) -> Option<Refusal>
    ensures { result ≡ submit_cause answer }
{
    of_answer::<Submission>(answer)
}

#[tactic(auto, using(crate::proofs::Each::of_step))]
pub fn of_step(answer: Result<u8, Refusal>) -> Option<Refusal>
    ensures { result ≡ step_cause answer }
{
    of_answer::<u8>(answer)
}

#[tactic(auto, using(crate::proofs::Each::of_collect))]
pub fn of_collect(answer: Result<usize, Refusal>) -> Option<Refusal>
    ensures { result ≡ collect_cause answer }
{
    of_answer::<usize>(answer)
}

#[tactic(auto, using(crate::proofs::Each::of_reset))]
pub fn of_reset(answer: Result<(), Refusal>) -> Option<Refusal>
    ensures { result ≡ reset_cause answer }
{
    of_answer::<()>(answer)
}
