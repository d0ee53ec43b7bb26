// Each edge from each state: for every code that a record's word 00h can have as its state, 0 to 15,
// and each type, the command edges and the engine writes that are permitted, one line for each, and
// last the engine writes that are refused for the type, which get 0x88.
#![tactic(auto)]

use commands::Op;
use edges::{EdgeDenial, Move};
use example_text::{STATES, StateName, print_code};
use std::io;

// The ops in the order of document 01's table of edges.
const OPS: [u16; 11] = [
    0x19, 0x2d, 0x1a, 0x1b, 0x1c, 0x1d, 0x1f, 0x38, 0x20, 0x1e, 0x21,
];

// The heading before the first of a list, a comma before each later one.
fn before(any: bool, heading: &str) -> &str {
    if any { ", " } else { heading }
}

fn print_if_none(rt: &impl Print, any: bool, none: &str) -> io::Result<()> {
    if any {
        return Ok(());
    }
    print!(rt; "{none}")
}

// The commands' edges that are permitted. An op that is no edge would show in the output.
fn print_edges(rt: &impl Print, code: u8, service: u8) -> io::Result<()> {
    let mut any = false;
    for op in OPS {
        let Some(Op::ModifyQp(edge)) = commands::read_op(op) else {
            print!(rt; "WRONG ")?;
            continue;
        };
        if edges::judge(Move::Command(edge), code, service).is_ok() {
            let separator = before(any, "commands ");
            let to = StateName(edges::target(edge));
            print!(rt; "{separator}0x{op:x} to {to}")?;
            any = true;
        }
    }
    print_if_none(rt, any, "no command")
}

// The states that an engine write leaves, or would leave, where the write gets `wanted`; answers
// whether any is printed.
fn print_writes(
    rt: &impl Print,
    code: u8,
    service: u8,
    wanted: Result<(), EdgeDenial>,
    heading: &str,
) -> io::Result<bool> {
    let mut any = false;
    for to in STATES {
        if edges::judge(Move::Engine(to), code, service) == wanted {
            let separator = before(any, heading);
            let name = StateName(to);
            print!(rt; "{separator}{name}")?;
            any = true;
        }
    }
    Ok(any)
}

fn print_line(rt: &impl Print, code: u8, service: u8, type_name: &str) -> io::Result<()> {
    print_code(rt, code)?;
    print!(rt; ", {type_name}: ")?;
    print_edges(rt, code, service)?;
    print!(rt; "; ")?;
    let any = print_writes(rt, code, service, Ok(()), "engine writes ")?;
    print_if_none(rt, any, "no engine write")?;
    print_writes(
        rt,
        code,
        service,
        Err(EdgeDenial::NotForType),
        "; 0x88 for ",
    )?;
    println!(rt)
}

fn main(rt: HostRuntime) -> io::Result<()> {
    for code in 0..16u8 {
        // The codes of the service types RC, UC and UD. The edge decision takes any byte.
        print_line(&rt, code, 0, "RC")?;
        print_line(&rt, code, 1, "UC")?;
        print_line(&rt, code, 3, "UD")?;
    }
    Ok(())
}
