// What a request is: the commands on a record, and the engine requests.
#![tactic(auto)]

ghost use Rattle.std.specs.Prelude.{◌≡◌};
ghost use Rattle.requests.specs.Psns.{psn_fits};

use context::{CqNumber, EqNumber, MptNumber, QpNumber};
use edges::{Edge, State};

// A record that software and hardware hand over to each other.
#[derive(Clone, Copy)]
pub enum Owned {
    Mpt(MptNumber),
    Eq(EqNumber),
    Cq(CqNumber),
}

// The commands on a record, which use a slot.
#[derive(Clone, Copy)]
pub enum Command {
    Sw2Hw(Owned),
    Hw2Sw(Owned),
    ResizeCq(CqNumber),
    QueryQp(QpNumber),
    ModifyQp(Edge, QpNumber),
}

// Which packet sequence number (PSN) of a queue pair an engine write sets.
#[derive(Clone, Copy)]
pub enum PsnField {
    NextSend,
    LastAcked,
    Expected,
}

// An engine request as a slot holds it. Request 7 is asked for by its queue pair alone.
#[derive(Clone, Copy)]
pub enum EngineRequest {
    ReadState(QpNumber),
    ReadNext(QpNumber),
    ReadAll(QpNumber),
    // The PSN and the state that the write leaves.
    Write(PsnField, State, QpNumber, u32),
    // The queue pair, and the completion queue and event queue that the submission found named.
    ReadJoined(QpNumber, CqNumber, EqNumber),
}

#[derive(Clone, Copy)]
pub enum Request {
    Command(Command),
    Engine(EngineRequest),
}

// Whether a PSN is one that an engine write may set: it has 24 bits.
pub fn psn_fits(psn: u32) -> bool
    ensures { result ≡ psn_fits psn }
{
    psn <= 0xffffff
}
