// The table of edges, entry by entry: for which service types a move may leave a state code. It is
// read off the edge decision.
#![tactic(auto)]

ghost use Rattle.std.specs.Prelude.{◌≡◌};
ghost use Rattle.edge_table.specs.Table.{entry_of};

use edges::{EdgeDenial, Move};

// The code of the service type RC. The edge decision takes any byte.
const RC: u8 = 0;

// For which service types the table has a move.
#[derive(Clone, Copy)]
pub enum Entry {
    Always,
    UnlessRc,
    Never,
}

// The table's entry for a move out of a code: the verdict for RC tells whether another type is permitted.
pub fn look_up(asked: Move, code: u8) -> Entry
    ensures { result ≡ entry_of asked code }
{
    match edges::judge(asked, code, RC) {
        Ok(()) => Entry::Always,
        Err(EdgeDenial::NotPermitted) => Entry::Never,
        Err(EdgeDenial::NotForType) => Entry::UnlessRc,
    }
}
