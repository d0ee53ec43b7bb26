// The operations over a lent row, for programs: each takes nine slots by value and lends the first `n`
// of them, all nine at most, so that rows of any length up to nine are lent. What is not lent stays.
#![tactic(auto)]

ghost use Rattle.std.specs.Prelude.{◌≡◌, take, drop};
ghost use Rattle.rules.specs.World.{world};
ghost use Rattle.rules.specs.Steps.{stepped, step_of};
ghost use Rattle.rules.specs.Collections.{collected, collect_of};
ghost use Rattle.rules.specs.Resets.{resetted, reset_of};

use front_rows::{FrontAnswer, front};
use lent_answers::Reply;
use possible::Hca;
use rules::Refusal;
use slots::Slot;

// A step.
pub fn step_front(
    hca: Hca,
    row: [Slot; 9],
    n: usize,
    store: &mut [u8],
    room: &mut [u8],
    k: usize,
) -> FrontAnswer<Result<u8, Refusal>>
    ensures { (stepped result.answer (world hca (take n result.row) store.new room.new)
        ≡ step_of (world hca (take n row) store.old room.old) k)
        × (drop n result.row ≡ drop n row) }
{
    let m = front(n);
    let mut lent = row;
    let answer = adapter_step::step(hca, &mut lent[..m], store, room, k);
    FrontAnswer { answer, row: lent }
}

// A collection.
pub fn collect_front(
    hca: Hca,
    row: [Slot; 9],
    n: usize,
    store: &[u8],
    room: &[u8],
    k: usize,
    out: &mut [u8],
) -> FrontAnswer<Result<usize, Refusal>>
    ensures { (collected result.answer (world hca (take n result.row) store.now room.now) out.new
        ≡ collect_of (world hca (take n row) store.now room.now) k out.old)
        × (drop n result.row ≡ drop n row) }
{
    let m = front(n);
    let mut lent = row;
    let answer = adapter_collect::collect(hca, &mut lent[..m], store, room, k, out);
    FrontAnswer { answer, row: lent }
}

// A reset.
pub fn reset_front(
    hca: Hca,
    row: [Slot; 9],
    n: usize,
    store: &[u8],
    room: &[u8],
) -> FrontAnswer<Reply<()>>
    ensures { (resetted result.answer.answer (world result.answer.hca (take n result.row) store.now room.now)
        ≡ reset_of (world hca (take n row) store.now room.now))
        × (drop n result.row ≡ drop n row) }
{
    let m = front(n);
    let mut lent = row;
    let answer = adapter_reset::reset(hca, &mut lent[..m], store, room);
    FrontAnswer { answer, row: lent }
}
