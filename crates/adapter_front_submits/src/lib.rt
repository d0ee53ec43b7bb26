// The submissions over a lent row, for programs, as adapter_fronts has the other operations.
#![tactic(auto)]

ghost use Rattle.std.specs.Prelude.{◌≡◌, take, drop};
ghost use Rattle.rules.specs.World.{world};
ghost use Rattle.rules.specs.Admission.{submitted};
ghost use Rattle.rules.specs.Engines.{submit_engine};
ghost use Rattle.rules.specs.Commands.{submit_command};

use front_rows::{FrontAnswer, front};
use lent_answers::Reply;
use possible::Hca;
use rules::Submission;
use slots::Slot;

// The submission of an engine request.
pub fn engine_front(
    hca: Hca,
    row: [Slot; 9],
    n: usize,
    store: &mut [u8],
    room: &mut [u8],
    number: u32,
    index: u32,
    psn: u32,
    state: u8,
) -> FrontAnswer<Reply<Submission>>
    ensures { (submitted result.answer.answer (world result.answer.hca (take n result.row) store.new room.new)
        ≡ submit_engine (world hca (take n row) store.old room.old) number index psn state)
        × (drop n result.row ≡ drop n row) }
{
    let m = front(n);
    let mut lent = row;
    let answer = adapter_engine::submit_engine(
        hca,
        &mut lent[..m],
        store,
        room,
        number,
        index,
        psn,
        state,
    );
    FrontAnswer { answer, row: lent }
}

// The submission of a command.
pub fn command_front(
    hca: Hca,
    row: [Slot; 9],
    n: usize,
    store: &mut [u8],
    room: &mut [u8],
    bytes: &[u8],
    mail: &[u8],
) -> FrontAnswer<Reply<Submission>>
    ensures { (submitted result.answer.answer (world result.answer.hca (take n result.row) store.new room.new)
        ≡ submit_command (world hca (take n row) store.old room.old) bytes.now mail.now)
        × (drop n result.row ≡ drop n row) }
{
    let m = front(n);
    let mut lent = row;
    let answer = adapter_command::submit_command(hca, &mut lent[..m], store, room, bytes, mail);
    FrontAnswer { answer, row: lent }
}
