// One burst of an engine write: the PSN, and the state.
#![tactic(auto)]

ghost use Rattle.std.specs.Prelude.{◌≡◌};
ghost use Rattle.words.specs.Maps.{map_from};
ghost use Rattle.burst_table.specs.Bursts.{psn_place};
ghost use Rattle.byte_rule.specs.Bytes.{psn_byte, write_byte};
ghost use Rattle.word_moves.specs.Places.{Burst};

use burst_table::BURST;
use edges::State;
use requests::PsnField;

// The PSN in the last three bytes of its word, high byte first, where the burst has them.
fn psn_burst(which: PsnField, psn: u32, burst: &mut [u8], first: usize)
    requires { Burst burst.old first }
    ensures { burst.new ≡ map_from (psn_byte (psn_place which) psn) first burst.old }
{
    let word = burst_table::psn_place(which);
    if word / BURST * BURST != first {
        return;
    }
    let at = word - first;
    burst[at + 1] = (psn / 0x1_0000 % 0x100) as u8;
    burst[at + 2] = (psn / 0x100 % 0x100) as u8;
    burst[at + 3] = (psn % 0x100) as u8;
}

// An engine write: the PSN and the state, each in a burst of its own (01, Engine requests).
pub fn state_and_psn_burst(which: PsnField, psn: u32, to: State, burst: &mut [u8], first: usize)
    requires { Burst burst.old first }
    ensures { burst.new ≡ map_from (write_byte which psn to) first burst.old }
{
    psn_burst(which, psn, burst, first);
    edge_bursts::set_state(to, burst, first);
}
