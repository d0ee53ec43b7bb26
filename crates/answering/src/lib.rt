// The answer of a slot's request, written from the slot's part of the room.
// It needs no row, so that an operation can hold its slots as it likes.
#![tactic(auto)]

ghost use Rattle.std.specs.Prelude.{◌≡◌};
ghost use Rattle.words.specs.Parts.{splice};
ghost use Rattle.answers.specs.Answers.{answer_of};
ghost use Rattle.bursts.specs.Room.{room_of};
ghost use Rattle.answering.specs.Answered.{Answerable};

use burst_table::SLOT_ROOM;
use requests::Request;

// Writes the answer of slot k's request, from the slot's part of the room.
pub fn write_answer(room: &[u8], k: usize, request: Request, out: &mut [u8])
    requires { Answerable room.now k request out.old }
    ensures { out.new ≡ splice 0 (answer_of request (room_of k room.now)) out.old }
{
    let base = burst_table::slot_start(k);
    let end = base + SLOT_ROOM;
    answers::write_answer(request, &room[base..end], out);
}
