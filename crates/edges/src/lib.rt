// Which moves of a queue pair's state are permitted: by a command's edge, and by an engine write.
#![tactic(auto)]

ghost use Rattle.std.specs.Prelude.{◌≡◌};
ghost use Rattle.words.specs.Choice.{pick};
ghost use Rattle.edges.specs.States.{state_code, is_service};
ghost use Rattle.edges.specs.Edges.{to_of, permits, permits_some, for_some_type, judge_of, edge_verdict_number};
ghost use Rattle.edges.specs.Lines.{edge_bit, sqe_bits, write_bits, bits_of, Leads};

// The states of a queue pair.
#[derive(Clone, Copy)]
pub enum State {
    Reset,
    Init,
    Rtr,
    Rts,
    Sqe,
    Sqd,
    Err,
}

// The edges that a command asks for, in the order of document 01's table.
#[derive(Clone, Copy)]
pub enum Edge {
    ResetToInit,
    InitToInit,
    InitToRtr,
    RtrToRts,
    RtsToRts,
    SqeToRts,
    RtsToSqd,
    SqdToSqd,
    SqdToRts,
    ToErr,
    ToReset,
}

// What is asked of a queue pair: a command's edge, or an engine write that leaves this state.
#[derive(Clone, Copy)]
pub enum Move {
    Command(Edge),
    Engine(State),
}

// Why a move is not permitted. An engine write may be permitted for another service type.
#[derive(Clone, Copy, Debug, PartialEq, Eq)]
pub enum EdgeDenial {
    NotPermitted,
    NotForType,
}

// Codes of service types.
const RC: u8 = 0;

const UC: u8 = 1;

const UD: u8 = 3;

impl From<State> for u8 {
    ghost from_gives = { λ state code. code ≡ state_code state };

    // The code of a state, as a record has it.
    fn from(state: State) -> u8 {
        match state {
            State::Reset => 0,
            State::Init => 1,
            State::Rtr => 2,
            State::Rts => 3,
            State::Sqe => 4,
            State::Sqd => 5,
            State::Err => 6,
        }
    }
}

// The state that an edge leads to.
pub fn target(edge: Edge) -> State
    ensures { result ≡ to_of edge }
{
    match edge {
        Edge::ResetToInit => State::Init,
        Edge::InitToInit => State::Init,
        Edge::InitToRtr => State::Rtr,
        Edge::RtrToRts => State::Rts,
        Edge::RtsToRts => State::Rts,
        Edge::SqeToRts => State::Rts,
        Edge::RtsToSqd => State::Sqd,
        Edge::SqdToSqd => State::Sqd,
        Edge::SqdToRts => State::Rts,
        Edge::ToErr => State::Err,
        Edge::ToReset => State::Reset,
    }
}

// Whether a byte is a service type: RC 0, UC 1 or UD 3.
pub fn is_service(service: u8) -> bool
    ensures { result ≡ is_service service }
{
    if service == 0 {
        return true;
    }
    if service == 1 {
        return true;
    }
    service == 3
}

// A set of moves has a bit for each command's edge, and one for each state that an engine write may
// leave; SQE has two, one for every type and one for every type but RC.
const RESET_TO_INIT: u32 = 0x1;

const INIT_TO_INIT: u32 = 0x2;

const INIT_TO_RTR: u32 = 0x4;

const RTR_TO_RTS: u32 = 0x8;

const RTS_TO_RTS: u32 = 0x10;

const SQE_TO_RTS: u32 = 0x20;

const RTS_TO_SQD: u32 = 0x40;

const SQD_TO_SQD: u32 = 0x80;

const SQD_TO_RTS: u32 = 0x100;

const TO_ERR: u32 = 0x200;

const TO_RESET: u32 = 0x400;

const NO_WRITE: u32 = 0;

const WRITE_RTR: u32 = 0x1000;

const WRITE_RTS: u32 = 0x2000;

const WRITE_SQE: u32 = 0x4000;

const WRITE_SQE_NOT_RC: u32 = 0x8000;

const WRITE_SQD: u32 = 0x10000;

const WRITE_ERR: u32 = 0x20000;

// What leads out of each state, one line for each, by rising code: RESET 0, INIT 1, RTR 2, RTS 3,
// SQE 4, SQD 5, ERR 6. Out of every other code nothing leads.
fn leads(code: u8) -> u32
    ensures { Leads code result }
{
    match code {
        0 => RESET_TO_INIT,
        1 => INIT_TO_INIT | INIT_TO_RTR | TO_ERR | TO_RESET,
        2 => RTR_TO_RTS | TO_ERR | TO_RESET | WRITE_RTR | WRITE_ERR,
        3 => RTS_TO_RTS | RTS_TO_SQD | TO_ERR | TO_RESET | WRITE_RTS | WRITE_SQE_NOT_RC | WRITE_ERR,
        4 => SQE_TO_RTS | TO_ERR | TO_RESET | WRITE_SQE | WRITE_ERR,
        5 => SQD_TO_SQD | SQD_TO_RTS | TO_ERR | TO_RESET | WRITE_SQD | WRITE_SQE_NOT_RC | WRITE_ERR,
        6 => TO_RESET,
        _ => 0,
    }
}

// The bit of a command's edge.
fn edge_bit(edge: Edge) -> u32
    ensures { result ≡ edge_bit edge }
{
    match edge {
        Edge::ResetToInit => RESET_TO_INIT,
        Edge::InitToInit => INIT_TO_INIT,
        Edge::InitToRtr => INIT_TO_RTR,
        Edge::RtrToRts => RTR_TO_RTS,
        Edge::RtsToRts => RTS_TO_RTS,
        Edge::SqeToRts => SQE_TO_RTS,
        Edge::RtsToSqd => RTS_TO_SQD,
        Edge::SqdToSqd => SQD_TO_SQD,
        Edge::SqdToRts => SQD_TO_RTS,
        Edge::ToErr => TO_ERR,
        Edge::ToReset => TO_RESET,
    }
}

// The bits of an engine write to SQE: both for every type but RC.
fn sqe_bits(service: u8) -> u32
    ensures { result ≡ sqe_bits service }
{
    if service == RC {
        return WRITE_SQE;
    }
    WRITE_SQE | WRITE_SQE_NOT_RC
}

// The bits of an engine write that leaves this state. RESET and INIT have none: no write may leave
// them.
fn write_bits(to: State, service: u8) -> u32
    ensures { result ≡ write_bits to service }
{
    match to {
        State::Reset => NO_WRITE,
        State::Init => NO_WRITE,
        State::Rtr => WRITE_RTR,
        State::Rts => WRITE_RTS,
        State::Sqe => sqe_bits(service),
        State::Sqd => WRITE_SQD,
        State::Err => WRITE_ERR,
    }
}

// The bits of a move: it is permitted where one of them leads out of the code.
fn bits(asked: Move, service: u8) -> u32
    ensures { result ≡ bits_of asked service }
{
    match asked {
        Move::Command(edge) => edge_bit(edge),
        Move::Engine(to) => write_bits(to, service),
    }
}

// Whether the move is permitted.
fn permitted(asked: Move, code: u8, service: u8) -> bool
    ensures { result ≡ permits asked code service }
{
    leads(code) & bits(asked, service) != 0
}

// Whether an engine write is permitted for some service type.
fn permitted_for_some(to: State, code: u8) -> bool
    ensures { result ≡ permits_some to code }
{
    if permitted(Move::Engine(to), code, RC) {
        return true;
    }
    if permitted(Move::Engine(to), code, UC) {
        return true;
    }
    permitted(Move::Engine(to), code, UD)
}

// Whether the move is an engine write, permitted for some service type.
fn for_some_type(asked: Move, code: u8) -> bool
    ensures { result ≡ for_some_type asked code }
{
    match asked {
        Move::Command(_) => false,
        Move::Engine(to) => permitted_for_some(to, code),
    }
}

// The decision, from the record's state code and service type.
pub fn judge(asked: Move, code: u8, service: u8) -> Result<(), EdgeDenial>
    ensures { (result ≡ judge_of asked code service)
        × (edge_verdict_number result ≡ pick (permits asked code service) 0 (pick (for_some_type asked code) 0x88 0x85)) }
{
    if permitted(asked, code, service) {
        return Ok(());
    }
    if for_some_type(asked, code) {
        return Err(EdgeDenial::NotForType);
    }
    Err(EdgeDenial::NotPermitted)
}
