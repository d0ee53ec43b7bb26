// Runs a script that has every refusal, each with its cause.
#![tactic(auto)]

use std::io;

fn main(rt: HostRuntime) -> io::Result<()> {
    script_run::run(&rt)
}
