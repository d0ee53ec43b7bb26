// The same as `waves`, over a clash of holds.
#![tactic(auto)]

use std::io;

fn main(rt: HostRuntime) -> io::Result<()> {
    script_run::run_waves(&rt)
}
