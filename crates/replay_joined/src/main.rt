// Runs a script of joined reads: a queue pair, its completion queue and that one's event queue at once.
#![tactic(auto)]

use std::io;

fn main(rt: HostRuntime) -> io::Result<()> {
    script_run::run(&rt)
}
