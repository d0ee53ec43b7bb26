// Whether a state handed in is impossible.
#![tactic(auto)]

ghost use Rattle.std.specs.Prelude.{◌≡◌};
ghost use Rattle.possible.specs.Possible.{open_impossible, impossible};

use context::Logs;
use possible::Hca;
use slots::Slot;

// Every operation asks this first. So it is one loop nest, and its helpers take slots, not the row:
// a row handed on is copied at every turn.
fn open_impossible(logs: Logs, store_len: usize, row: [Slot; 8]) -> bool
    ensures { result ≡ open_impossible logs store_len row }
{
    if !store_tables::fits_store(logs, store_len) {
        return true;
    }
    for i in 0..8 {
        if !slot_tests::is_occupied(row[i]) {
            continue;
        }
        if slot_checks::slot_wrong(logs, row[i]) {
            return true;
        }
        let next = i + 1;
        for j in next..8 {
            if slot_pairs::pair_wrong(row[i], row[j]) {
                return true;
            }
        }
    }
    false
}

pub fn is_impossible(hca: Hca, row: [Slot; 8]) -> bool
    ensures { result ≡ impossible hca row }
{
    if !hca.open {
        return row_scans::any_occupied(row);
    }
    let logs = hca.logs;
    open_impossible(logs, hca.store_len, row)
}
