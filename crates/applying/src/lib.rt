// A decision applied: the only place where a submission changes anything.
#![tactic(auto)]

ghost use Rattle.std.specs.Prelude.{◌≡◌, length};
ghost use Rattle.rules.specs.World.{world};
ghost use Rattle.rules.specs.Admission.{applied};
ghost use Rattle.handed_back.specs.Handed.{submit_handed};
ghost use Rattle.applying.specs.Applies.{Applies};
ghost use Rattle.applying.specs.Calls.{handed};

use handed_back::Submitted;
use possible::Hca;
use rules::{Decision, Refusal, Submission};
use slots::Slot;

// The answer and the state, with the slot to be stored and its place.
fn hand_back(answer: Result<Submission, Refusal>, hca: Hca, at: usize, slot: Slot) -> Submitted
    ensures { result ≡ handed answer hca at slot }
{
    Submitted {
        answer,
        hca,
        at,
        slot,
    }
}

// Does what was decided. Where no slot changes, slot 0 is handed back as it was. The row is indexed
// here: handed on, it would be copied.
pub fn apply(
    hca: Hca,
    row: [Slot; 8],
    store: &mut [u8],
    room: &mut [u8],
    mail: &[u8],
    decision: Result<Decision, Refusal>,
) -> Submitted
    requires { Applies (length store.old) (length room.old) (length mail.now) decision }
    ensures { submit_handed row store.new room.new result
        ≡ applied (world hca row store.old room.old) mail.now decision }
{
    let first = row[0];
    let decision = match decision {
        Ok(decision) => decision,
        Err(cause) => return hand_back(Err(cause), hca, 0, first),
    };
    match decision {
        Decision::Nothing => hand_back(Ok(Submission::Done), hca, 0, first),
        Decision::Close => hand_back(Ok(Submission::Done), apply_parts::close_hca(hca), 0, first),
        Decision::Open(logs) => {
            let opened = apply_parts::init_hca(logs, store);
            hand_back(Ok(Submission::Done), opened, 0, first)
        }
        Decision::Take(request, k) => {
            apply_parts::fill_room(room, mail, request, k);
            hand_back(Ok(Submission::Accepted(k)), hca, k, row[k].accept(request))
        }
    }
}
