// A device of document 01's examples, with the logarithms 3, 2, 1 and 2. An example is the calls that
// are made on it, in order from where it is closed, so each says all that went before its last call.
ghost use Rattle.std.specs.Prelude.{◌≤◌};

use crate::calls::{Call, Operation, Unusual, collect, command, step};
use front_rows::FrontAnswer;
use hcr::HcrCommand;
use lent_answers::Reply;
use possible::Hca;
use rules::{Refusal, Submission};
use slots::Slot;

// The most bytes of each memory that a call is lent.
const STORE: usize = 2689;

const ROOM: usize = 3072;

const OUT: usize = 384;

// Byte 84h of queue pair 7.
const WORD_84: usize = 7 * 256 + 0x84;

// What the caller keeps: the state, the slots and the memory, and what the last call answered.
#[derive(Drop)]
pub struct Device {
    answer: Result<Submission, Refusal>,
    hca: Hca,
    row: [Slot; 9],
    store: [u8; STORE],
    room: [u8; ROOM],
}

// The bytes of each memory that a call is lent.
fn room_len(call: Call) -> usize
    ensures { result ≤ 3072 }
{
    match call.unusual {
        Some(Unusual::Room3071) => 3071,
        _ => 3072,
    }
}

fn store_len(call: Call) -> usize
    ensures { result ≤ 2689 }
{
    match call.unusual {
        Some(Unusual::Store2687) => 2687,
        Some(Unusual::Store2689) => 2689,
        _ => 2688,
    }
}

fn out_len(call: Call) -> usize
    ensures { result ≤ 384 }
{
    match call.unusual {
        Some(Unusual::Buffer255) => 255,
        Some(Unusual::Buffer383) => 383,
        _ => 384,
    }
}

fn register_bytes(asked: HcrCommand, call: Call) -> [u8; 28] {
    let mut bytes = [0u8; 28];
    // The register is long enough, and each op of an example fits in it.
    let _ = hcr_writer::write(&mut bytes, asked);
    if call.has(Unusual::NoGo) {
        bytes[0x1a] = 0;
    }
    bytes
}

// One mailbox for all commands: the counts of INIT_HCA, each the low byte of a word, a type, P12's
// word 84h, word 2Ch 0 for CQ 0, and the names in words 10h and 70h.
fn mailbox_bytes(call: Call) -> [u8; 164] {
    let either = |which: Unusual, other: u32, usual: u32| {
        if call.has(which) { other } else { usual }
    };
    let mut bytes = [0u8; 164];
    words::write_be32(&mut bytes, 0x00, either(Unusual::Type2, 2 << 16, 0));
    words::write_be32(&mut bytes, 0x0c, either(Unusual::Log15, 15, 3));
    words::write_be32(&mut bytes, 0x10, either(Unusual::Eq2, 2, 0));
    words::write_be32(&mut bytes, 0x14, 2);
    words::write_be32(&mut bytes, 0x1c, 1);
    words::write_be32(&mut bytes, 0x34, 2);
    words::write_be32(&mut bytes, 0x70, either(Unusual::Cq4, 4, 0));
    words::write_be32(&mut bytes, 0x84, 0x07000010);
    bytes
}

// All of the bytes, or all but the last.
fn lent(bytes: &[u8], short: bool) -> &[u8] {
    match bytes.split_last() {
        Some((_, front)) if short => front,
        _ => bytes,
    }
}

// What another operation hands back, as a submission does: the numbers of the answers are the same.
fn handed_back<T: Drop>(
    answer: Result<T, Refusal>,
    hca: Hca,
    row: [Slot; 9],
) -> FrontAnswer<Reply<Submission>> {
    FrontAnswer {
        answer: Reply {
            answer: answer.map(|_| Submission::Done),
            hca,
        },
        row,
    }
}

fn perform(
    hca: Hca,
    row: [Slot; 9],
    store: &mut [u8],
    room: &mut [u8],
    call: Call,
) -> FrontAnswer<Reply<Submission>> {
    match call.operation {
        Operation::Command {
            op,
            op_modifier,
            in_modifier,
        } => {
            let asked = HcrCommand {
                in_param: 0,
                in_modifier,
                out_param: 0,
                token: 0,
                event: call.has(Unusual::Event),
                op_modifier,
                op,
            };
            let register = register_bytes(asked, call);
            let mail = mailbox_bytes(call);
            adapter_front_submits::command_front(
                hca,
                row,
                call.row,
                store,
                room,
                lent(&register, call.has(Unusual::Hcr27)),
                lent(&mail, call.has(Unusual::Mailbox163)),
            )
        }
        Operation::Engine {
            request,
            index,
            psn,
            state,
        } => adapter_front_submits::engine_front(
            hca, row, call.row, store, room, request, index, psn, state,
        ),
        Operation::Step(k) => {
            let done = adapter_fronts::step_front(hca, row, call.row, store, room, k);
            handed_back(done.answer, hca, done.row)
        }
        Operation::Collect(k) => {
            let mut out = [0u8; OUT];
            let n = out_len(call);
            let done = adapter_fronts::collect_front(
                hca,
                row,
                call.row,
                store,
                room,
                k,
                &mut out[..n],
            );
            handed_back(done.answer, hca, done.row)
        }
        Operation::Reset => {
            let done = adapter_fronts::reset_front(hca, row, call.row, store, room);
            handed_back(done.answer.answer, done.answer.hca, done.row)
        }
    }
}

impl Device {
    pub fn closed() -> Device {
        Device {
            answer: Ok(Submission::Done),
            hca: start::closed_state(),
            row: start::nine_free(),
            store: [0; STORE],
            room: [0; ROOM],
        }
    }

    // After INIT_HCA.
    pub fn open() -> Device {
        Device::closed().then(command(0x07, 0))
    }

    // With queue pair 7 in RTR.
    pub fn ready() -> Device {
        Device::open().whole(0x19, 7).whole(0x1a, 7)
    }

    // With queue pair 7 in RTS.
    pub fn sending() -> Device {
        Device::ready().whole(0x1b, 7)
    }

    // Makes a call, with what it is lent.
    pub fn then(mut self, call: Call) -> Device {
        let hca = if call.has(Unusual::ClosedState) {
            start::closed_state()
        } else {
            self.hca
        };
        let s = store_len(call);
        let m = room_len(call);
        let done = perform(
            hca,
            self.row,
            &mut self.store[..s],
            &mut self.room[..m],
            call,
        );
        let row = done.row;
        self.answer = done.answer.answer;
        self.hca = done.answer.hca;
        self.row = row;
        self
    }

    pub fn repeat(self, call: Call, times: u32) -> Device {
        let mut device = self;
        for _ in 0..times {
            device = device.then(call);
        }
        device
    }

    // A command on a queue pair in slot 0, with its 16 bursts moved and collected.
    fn whole(self, op: u16, index: u32) -> Device {
        self.then(command(op, index))
            .repeat(step(0), 16)
            .then(collect(0))
    }

    // Document 01's number for the last answer.
    pub fn number(&self) -> u8 {
        numbers_returned::submit_number(self.answer)
    }

    // The slot of the last acceptance.
    pub fn slot(&self) -> Option<usize> {
        match self.answer {
            Ok(Submission::Accepted(k)) => Some(k),
            _ => None,
        }
    }

    // Word 84h of queue pair 7.
    pub fn word_84(&self) -> u32 {
        words::read_be32(&self.store, WORD_84)
    }
}
