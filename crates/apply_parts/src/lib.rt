// The changes that an applied decision makes: the state closed, the records made zero and the state opened,
// and a mailbox put into the room.
#![tactic(auto)]

ghost use Rattle.std.specs.Prelude.{◌≡◌, length};
ghost use Rattle.words.specs.Parts.{part};
ghost use Rattle.mailboxes.specs.Mailboxes.{need_of};
ghost use Rattle.bursts.specs.Room.{room_filled};
ghost use Rattle.rules.specs.World.{shut};
ghost use Rattle.apply_parts.specs.Parts.{Opening, Taking, Opened};

use context::Logs;
use possible::Hca;
use requests::Request;

// CLOSE_HCA closes; counts and length stay.
pub fn close_hca(hca: Hca) -> Hca
    ensures { result ≡ shut hca }
{
    let logs = hca.logs;
    Hca {
        open: false,
        logs: logs,
        store_len: hca.store_len,
    }
}

// INIT_HCA makes every record zero, opens, and remembers the store's length.
pub fn init_hca(logs: Logs, store: &mut [u8]) -> Hca
    requires { Opening logs (length store.old) }
    ensures { Opened logs store.old store.new result }
{
    let store_len = store.len();
    records::zero(logs, store);
    Hca {
        open: true,
        logs: logs,
        store_len: store_len,
    }
}

// The mailbox bytes that the request needs go to the front of slot k's part of the room.
pub fn fill_room(room: &mut [u8], mail: &[u8], request: Request, k: usize)
    requires { Taking request k (length room.old) (length mail.now) }
    ensures { room.new ≡ room_filled k (part 0 (need_of request) mail.now) room.old }
{
    let need = mailboxes::need(request);
    let base = burst_table::slot_start(k);
    words::copy_to(&mail[..need], room, base);
}
