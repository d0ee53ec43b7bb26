// A script's `show`: the state, and each lent slot.
#![tactic(auto)]

use possible::Hca;
use requests::{EngineRequest, Request};
use slots::{Slot, Status};
use std::io;

fn show_state(rt: &impl Print, hca: Hca) -> io::Result<()> {
    if !hca.open {
        return println!(rt; "closed");
    }
    let logs = hca.logs;
    println!(rt;
        "open {} {} {} {} {}",
        logs.qps, logs.cqs, logs.eqs, logs.mpts, hca.store_len
    )
}

// The PSN and the state of an engine write, and the names that a joined read holds.
fn show_fields(rt: &impl Print, engine: EngineRequest) -> io::Result<()> {
    match engine {
        EngineRequest::Write(_, state, _, psn) => {
            print!(rt; " psn {psn} state {}", u8::from(state))
        }
        EngineRequest::ReadJoined(_, c, e) => print!(rt; " cq {} eq {}", c.0, e.0),
        _ => Ok(()),
    }
}

fn show_request(rt: &impl Print, request: Request) -> io::Result<()> {
    let index = request_codes::index_of(request);
    match request {
        Request::Command(command) => {
            let op = request_codes::command_op(command);
            print!(rt; " command {op:#x} index {index}")
        }
        Request::Engine(engine) => {
            let number = request_codes::engine_number(engine);
            print!(rt; " engine {number} index {index}")?;
            show_fields(rt, engine)
        }
    }
}

fn show_occupied(rt: &impl Print, how: &str, moved: u8, request: Request) -> io::Result<()> {
    print!(rt; " {how}")?;
    show_request(rt, request)?;
    println!(rt; " moved {moved}")
}

fn show_slot(rt: &impl Print, slot: Slot) -> io::Result<()> {
    match slot.status {
        Status::Free => println!(rt; " free"),
        Status::Running(moved, request) => show_occupied(rt, "running", moved, request),
        Status::Finished(moved, request) => show_occupied(rt, "finished", moved, request),
    }
}

// The first `n` slots.
pub fn show(rt: &impl Print, hca: Hca, row: [Slot; 9], n: usize) -> io::Result<()> {
    show_state(rt, hca)?;
    for (k, slot) in row.iter().take(n).enumerate() {
        print!(rt; "slot {k}")?;
        show_slot(rt, *slot)?;
    }
    Ok(())
}
