// Runs document 01's examples P1 to P11, with the logarithms 3, 2, 1, 2 throughout, and prints for
// each what the model answers and what 01 gives.
#![tactic(auto)]

ghost use Rattle.std.specs.Prelude.{◌≡◌, ℕ};
ghost use Rattle.context.specs.Init.{init_found_number};
ghost use Rattle.edges.specs.Edges.{edge_verdict_number};
ghost use Rattle.hcr.specs.Register.{read_answer_number};

use context::{CqNumber, InitError, Logs, MptNumber, QpNumber, Record};
use edges::{EdgeDenial, Move, State};
use example_text::{check, check_number, code_of, print_compared};
use hcr::{HcrCommand, ReadError};
use std::{fmt, io};

const LOGS: Logs = Logs {
    qps: 3,
    cqs: 2,
    eqs: 1,
    mpts: 2,
};

// Codes of service types, in word 00h of a queue pair's record. The edge decision takes any byte.
const RC: u8 = 0;

const UC: u8 = 1;

const UD: u8 = 3;

// An answer that document 01 gives a number.
trait Numbered {
    ghost numbered: { Self → ℕ };

    fn number(self) -> u64
        ensures { result ≡ numbered self };
}

impl Numbered for Result<Logs, InitError> {
    ghost numbered = { init_found_number };

    fn number(self) -> u64 {
        match self {
            Ok(_) => 0,
            Err(InitError::ShortMailbox) => 0x83,
            Err(InitError::OutOfRange) => 3,
        }
    }
}

impl Numbered for Result<HcrCommand, ReadError> {
    ghost numbered = { read_answer_number };

    fn number(self) -> u64 {
        match self {
            Ok(_) => 0,
            Err(ReadError::Short) => 0x83,
            Err(ReadError::Malformed) => 3,
        }
    }
}

impl Numbered for Result<(), EdgeDenial> {
    ghost numbered = { edge_verdict_number };

    fn number(self) -> u64 {
        match self {
            Ok(()) => 0,
            Err(EdgeDenial::NotPermitted) => 0x85,
            Err(EdgeDenial::NotForType) => 0x88,
        }
    }
}

// The fields of a command register that an example gives.
#[derive(Clone, Copy, PartialEq, Eq)]
struct Fields {
    op: u16,
    op_modifier: u8,
}

impl fmt::Display for Fields {
    fn fmt<W: fmt::Write>(&self, f: &mut fmt::Formatter<W>) -> fmt::Result {
        let op = self.op;
        let op_modifier = self.op_modifier;
        write!(f, "op 0x{op:x}, op_modifier {op_modifier}")
    }
}

// What INIT_HCA's mailbox gets with a store of this length.
fn init(store: usize) -> Result<Logs, InitError> {
    let mut mailbox = [0u8; 64];
    mailbox[0x0f] = 3;
    mailbox[0x17] = 2;
    mailbox[0x1f] = 1;
    mailbox[0x37] = 2;
    store_tables::read_init(&mailbox, store)
}

#[tactic(auto, unfolding(context::specs::Layout::ranges_hold))]
fn start_of(record: Record) -> Option<usize> {
    if !record_kinds::is_record(LOGS, record) {
        return None;
    }
    Some(store_tables::record_at(LOGS, record))
}

// The command register with this word 18h and zeros before it, read.
fn read_word(word: u32) -> Result<HcrCommand, ReadError> {
    let mut register = [0u8; 28];
    words::write_le32(&mut register, 0x18, word);
    hcr_reader::read(&register)
}

// What an engine write gets that leaves the state `to`.
fn engine_write(from: State, service: u8, to: State) -> Result<(), EdgeDenial> {
    edges::judge(Move::Engine(to), code_of(from), service)
}

fn check_answer(rt: &impl Print, label: &str, answer: impl Numbered, given: u64) -> io::Result<()> {
    check_number(rt, label, answer.number(), given)
}

fn check_start(rt: &impl Print, label: &str, record: Record, given: usize) -> io::Result<()> {
    let Some(at) = start_of(record) else {
        return println!(rt; "{label} is no record: WRONG");
    };
    print!(rt; "{label} starts at ")?;
    print_compared(rt, at, given)
}

fn check_fields(
    rt: &impl Print,
    label: &str,
    found: Result<HcrCommand, ReadError>,
    given: Fields,
) -> io::Result<()> {
    let Ok(
        HcrCommand {
            op,
            op_modifier,
            ..
        },
    ) = found
    else {
        return println!(rt; "{label}: no command: WRONG");
    };
    check(rt, label, Fields { op, op_modifier }, given)
}

fn store_examples(rt: &impl Print) -> io::Result<()> {
    check_answer(rt, "P1 a store of 2688 bytes", init(2688), 0)?;
    check_answer(rt, "P2 a store of 2687 bytes", init(2687), 3)?;
    check_start(rt, "P3 QP 5", Record::Qp(QpNumber(5)), 1280)?;
    check_start(rt, "P4 CQ 3", Record::Cq(CqNumber(3)), 2240)?;
    check_start(rt, "P5 MPT 3", Record::Mpt(MptNumber(3)), 2624)
}

fn register_examples(rt: &impl Print) -> io::Result<()> {
    check_fields(
        rt,
        "P6 word 18h 0x00800019",
        read_word(0x00800019),
        Fields {
            op: 0x19,
            op_modifier: 0,
        },
    )?;
    check_fields(
        rt,
        "P7 word 18h 0x0080301e",
        read_word(0x0080301e),
        Fields {
            op: 0x1e,
            op_modifier: 3,
        },
    )?;
    check_answer(rt, "P8 word 18h 0x00900019", read_word(0x00900019), 3)
}

// P9 names no type, so it is run with each.
fn engine_examples(rt: &impl Print) -> io::Result<()> {
    check_answer(
        rt,
        "P9 engine RTR to SQE, RC",
        engine_write(State::Rtr, RC, State::Sqe),
        0x85,
    )?;
    check_answer(
        rt,
        "P9 engine RTR to SQE, UC",
        engine_write(State::Rtr, UC, State::Sqe),
        0x85,
    )?;
    check_answer(
        rt,
        "P9 engine RTR to SQE, UD",
        engine_write(State::Rtr, UD, State::Sqe),
        0x85,
    )?;
    check_answer(
        rt,
        "P10 engine RTS to SQE, UD",
        engine_write(State::Rts, UD, State::Sqe),
        0,
    )?;
    check_answer(
        rt,
        "P11 engine RTS to SQE, RC",
        engine_write(State::Rts, RC, State::Sqe),
        0x88,
    )
}

fn main(rt: HostRuntime) -> io::Result<()> {
    store_examples(&rt)?;
    register_examples(&rt)?;
    engine_examples(&rt)
}
