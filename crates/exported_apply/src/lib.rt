// A submission's decision applied to the bytes that the C interface is lent: the only place where an
// exported submission changes anything.
#![tactic(auto)]

ghost use Rattle.std.specs.Prelude.{◌≡◌, ◌+◌, ◌*◌, ◌<◌, length};
ghost use Rattle.words.specs.Parts.{part};
ghost use Rattle.mailboxes.specs.Mailboxes.{need_of};
ghost use Rattle.bursts.specs.Room.{room_filled};
ghost use Rattle.slots.specs.Slots.{slot};
ghost use Rattle.slots.specs.declared.Status.TheVariants.{Running};
ghost use Rattle.device_bytes.specs.Encoding.{put_slot};
ghost use Rattle.rules.specs.Admission.{applied};
ghost use Rattle.device_calls.specs.Calls.{world_of, left, submit_left};
ghost use Rattle.exported_apply.specs.Applied.{Ready, Placing};

use possible::Hca;
use requests::Request;
use rules::{Decision, Refusal};
use slots::{Slot, Status};

// A slot's number fits, so that `as` loses nothing.
fn narrow(k: usize) -> u32
    requires { k < 8 }
    ensures { (result ≡ k) × (result < 8) }
{
    k as u32
}

// Slot k takes the request, and its part of the room the mailbox bytes that it needs. The slot's number
// plus one is the answer's value, so that 0 says that none was taken.
fn take_slot(dev: &mut [u8], room: &mut [u8], mail: &[u8], request: Request, k: usize) -> u32
    requires { Placing request k (length room.old) (length mail.now) (length dev.old) }
    ensures { (result ≡ 256 * (k + 1)) × (dev.new ≡ put_slot k (slot (Running 0 request)) dev.old)
        × (room.new ≡ room_filled k (part 0 (need_of request) mail.now) room.old) }
{
    apply_parts::fill_room(room, mail, request, k);
    let free = Slot {
        status: Status::Free,
    };
    let taken = free.accept(request);
    slot_writers::write_slot(dev, k, taken);
    256 * (narrow(k) + 1)
}

// Does what was decided.
pub fn apply(
    hca: Hca,
    dev: &mut [u8],
    store: &mut [u8],
    room: &mut [u8],
    mail: &[u8],
    decision: Result<Decision, Refusal>,
) -> u32
    requires { Ready hca dev.old (length store.old) (length room.old) (length mail.now) decision }
    ensures { left result dev.new store.new room.new
        ≡ submit_left dev.old (applied (world_of dev.old store.old room.old)
        mail.now decision) }
{
    let decision = match decision {
        Ok(decision) => decision,
        Err(cause) => return u32::from(numbers_returned::refusal_number(cause)),
    };
    match decision {
        Decision::Nothing => {
            device_writers::write_header(dev, hca);
            0
        }
        Decision::Close => {
            device_writers::write_header(dev, apply_parts::close_hca(hca));
            0
        }
        Decision::Open(logs) => {
            device_writers::write_header(dev, apply_parts::init_hca(logs, store));
            0
        }
        Decision::Take(request, k) => take_slot(dev, room, mail, request, k),
    }
}
