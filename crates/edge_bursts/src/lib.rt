// One burst of an edge, and the state in a queue pair's record.
#![tactic(auto)]

ghost use Rattle.std.specs.Prelude.{◌≡◌, ◌≤◌, length};
ghost use Rattle.words.specs.Maps.{map_from};
ghost use Rattle.mailboxes.specs.Mailboxes.{edge_need};
ghost use Rattle.byte_rule.specs.Bytes.{with_state, edge_byte};
ghost use Rattle.word_moves.specs.Places.{Burst};

use edges::{Edge, State};

// Sets the state in byte 0 of a queue pair's record, which its first burst has.
pub fn set_state(to: State, burst: &mut [u8], first: usize)
    requires { Burst burst.old first }
    ensures { burst.new ≡ map_from (with_state to) first burst.old }
{
    if 0 < first {
        return;
    }
    let old = burst[0];
    burst[0] = byte_rule::with_state(to, 0, old);
}

// An edge: the words that it takes and then the state, or zeros (01, Commands, the table of edges).
pub fn edge_burst(edge: Edge, burst: &mut [u8], image: &[u8], first: usize)
    requires edge_in_bounds { edge_need edge ≤ length image.now }
    requires burst { Burst burst.old first }
    ensures { burst.new ≡ map_from (edge_byte edge image.now) first burst.old }
{
    if byte_rule::zeroes_record(edge) {
        owner_bursts::zero_burst(burst);
        return;
    }
    word_moves::take_words(edge, burst, image, first);
    set_state(edges::target(edge), burst, first);
}
