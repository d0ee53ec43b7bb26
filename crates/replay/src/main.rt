// Runs the script of calls on standard input and prints an answer for each.
#![tactic(auto)]

use std::io;

fn main(rt: HostRuntime) -> io::Result<()> {
    script_run::run(&rt)
}
