// Runs on a device what document 01's list of examples gives to a program, P12, and each row of the
// table of numbers returned, in its order, with those of the joined read (document 02, wish 2), and
// prints for each what the device answers and what the documents give. The number is the answer of
// the example's last call.
#![tactic(auto)]

mod before_records;
mod calls;
mod checking;
mod device;
mod listed;
mod on_records;

use std::io;

fn main(rt: HostRuntime) -> io::Result<()> {
    listed::indices(&rt)?;
    listed::psns(&rt)?;
    listed::word_84(&rt)?;
    listed::slots(&rt)?;
    before_records::lengths(&rt)?;
    before_records::impossible(&rt)?;
    before_records::slot_numbers(&rt)?;
    before_records::registers(&rt)?;
    before_records::system_states(&rt)?;
    before_records::uncollected(&rt)?;
    before_records::parameters(&rt)?;
    before_records::mailboxes(&rt)?;
    on_records::holds(&rt)?;
    on_records::joined(&rt)?;
    on_records::joined_holds(&rt)?;
    on_records::denials(&rt)
}
