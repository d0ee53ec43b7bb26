// Runs the script of calls on standard input and writes what it does as waves, a value change dump.
#![tactic(auto)]

use std::io;

fn main(rt: HostRuntime) -> io::Result<()> {
    script_run::run_waves(&rt)
}
