// The request table: for each request its records, and whether it writes them.
#![tactic(auto)]

use context::{CqNumber, EqNumber, QpNumber, Record};

// The records that a request holds while it runs: one, or the three of a joined read. Only the
// functions of `record_lists`, `request_numbers::all_records` and `records` look inside; no scan does.
#[derive(Clone, Copy)]
pub enum Records {
    One(Record),
    Three(QpNumber, CqNumber, EqNumber),
}
