// Runs a script in which requests clash over the records that they hold.
#![tactic(auto)]

use std::io;

fn main(rt: HostRuntime) -> io::Result<()> {
    script_run::run(&rt)
}
