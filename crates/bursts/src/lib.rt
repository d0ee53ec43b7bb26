// The leaves that move one burst: a part of the store is changed as a request does, or copied to
// the room.
#![tactic(auto)]

ghost use Rattle.std.specs.Prelude.{◌≡◌, length, ◌+◌, ◌%◌, ◌≤◌};
ghost use Rattle.words.specs.Parts.{part};
ghost use Rattle.mailboxes.specs.Mailboxes.{need_of};
ghost use Rattle.burst_table.specs.Sizes.{burst_size, slot_room};
ghost use Rattle.bursts.specs.Moves.{write_at, copy_at};

use burst_table::BURST;
use requests::Request;

// Copies a burst, through an array of its own, so that its bytes are moved together.
fn read_burst(from: &[u8], to: &mut [u8])
    requires from_len { length from.now ≡ burst_size }
    requires to_len { length to.old ≡ burst_size }
    ensures { to.new ≡ from.now }
{
    let mut moved = [0u8; BURST];
    words::copy_to(from, &mut moved, 0);
    words::copy_to(&moved, to, 0);
}

// Changes the burst at `at` of the store, which stands at offset `first` of its record. The
// request's mailbox bytes stand at `base` of the room.
pub fn write_at(
    store: &mut [u8],
    at: usize,
    room: &[u8],
    base: usize,
    request: Request,
    first: usize,
)
    requires burst_size_in_bounds { at + burst_size ≤ length store.old }
    requires request_in_bounds { base + need_of request ≤ length room.now }
    requires burst_size_bound { first + burst_size ≤ slot_room }
    requires burst_size_value { first % burst_size ≡ 0 }
    ensures { store.new
        ≡ write_at request (part base (need_of request) room.now) at first store.old }
{
    let end = at + BURST;
    let stop = base + mailboxes::need(request);
    burst_writes::write(request, &mut store[at..end], &room[base..stop], first);
}

// Copies the burst at `at` of the store to `to` of the room.
pub fn read_at(store: &[u8], at: usize, room: &mut [u8], to: usize)
    requires burst_size_in_bounds { at + burst_size ≤ length store.now }
    requires burst_size_in_bounds_2 { to + burst_size ≤ length room.old }
    ensures { room.new ≡ copy_at at store.now to room.old }
{
    let until = at + BURST;
    let stop = to + BURST;
    read_burst(&store[at..until], &mut room[to..stop]);
}
