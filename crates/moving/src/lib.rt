// One burst of a slot's request, moved: to the record by the bytes in the room, or from the record to the room.
// It needs no row, so that an operation can hold its slots as it likes.
#![tactic(auto)]

ghost use Rattle.std.specs.Prelude.{◌≡◌};
ghost use Rattle.records.specs.Calls.{Moving};
ghost use Rattle.moving.specs.Moves.{moved, burst_moved};

use possible::Hca;
use requests::Request;

// Moves burst m of slot k's request.
pub fn move_burst(hca: Hca, store: &mut [u8], room: &mut [u8], k: usize, request: Request, m: u8)
    requires { Moving hca.logs store.old room.old k request m }
    ensures { moved store.new room.new
        ≡ burst_moved hca store.old room.old k request m }
{
    let logs = hca.logs;
    if request_kinds::writes(request) {
        records::write_burst(logs, store, room, k, request, m);
        return;
    }
    records::read_burst(logs, store, room, k, request, m);
}
