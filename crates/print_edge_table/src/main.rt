// Prints the table of edges, to be held against the InfiniBand drawing: a line for each state code, 0 to
// 15, with the commands that may leave it, by op, and the states that an engine write may leave.
#![tactic(auto)]

use commands::Op;
use edge_table::Entry;
use edges::{Edge, Move};
use example_text::{STATES, StateName, print_code};
use std::io;

// The condition on the type under which the table has a move; none where it does not have it.
fn condition_of(entry: Entry) -> Option<&'static str> {
    match entry {
        Entry::Always => Some(""),
        Entry::UnlessRc => Some(" unless RC"),
        Entry::Never => None,
    }
}

fn print_command(rt: &impl Print, op: u16, edge: Edge, code: u8) -> io::Result<()> {
    let Some(condition) = condition_of(edge_table::look_up(Move::Command(edge), code)) else {
        return Ok(());
    };
    let to = StateName(edges::target(edge));
    print!(rt; "  0x{op:x} to {to}{condition}")
}

// Every op of 12 bits is tried, so that none can be left out.
fn print_commands(rt: &impl Print, code: u8) -> io::Result<()> {
    for op in 0..0x1000u16 {
        if let Some(Op::ModifyQp(edge)) = commands::read_op(op) {
            print_command(rt, op, edge, code)?;
        }
    }
    Ok(())
}

fn print_writes(rt: &impl Print, code: u8) -> io::Result<()> {
    for to in STATES {
        if let Some(condition) = condition_of(edge_table::look_up(Move::Engine(to), code)) {
            let name = StateName(to);
            print!(rt; "  {name}{condition}")?;
        }
    }
    Ok(())
}

fn print_line(rt: &impl Print, code: u8) -> io::Result<()> {
    print_code(rt, code)?;
    print!(rt; " |")?;
    print_commands(rt, code)?;
    print!(rt; " |")?;
    print_writes(rt, code)?;
    println!(rt)
}

fn main(rt: HostRuntime) -> io::Result<()> {
    println!(rt; "state | commands that may leave it | states that an engine write may leave")?;
    for code in 0..16u8 {
        print_line(&rt, code)?;
    }
    Ok(())
}
