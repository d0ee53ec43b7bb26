// A call of an example as data: which operation it is of, and what is not as usual in it.
use edges::State;
use example_text::code_of;

// What is not as usual in a call. The numbers are of bytes lent.
#[derive(Clone, Copy, PartialEq, Eq)]
pub enum Unusual {
    Room3071,
    Store2687,
    Store2689,
    Hcr27,
    Mailbox163,
    Buffer255,
    Buffer383,
    // In the command register: go is 0, or E is 1.
    NoGo,
    Event,
    // In the mailbox: the service type 2, or 2^15 queue pairs.
    Type2,
    Log15,
    // And the names of a queue that the store has not: in word 70h CQ 4, in word 10h EQ 2.
    Cq4,
    Eq2,
    // The state handed in is closed.
    ClosedState,
}

// Which operation a call is of, with what it is asked. The fields have the types that the operations
// take.
#[derive(Clone, Copy)]
pub enum Operation {
    Command {
        op: u16,
        op_modifier: u8,
        in_modifier: u32,
    },
    // An engine request, by its number.
    Engine {
        request: u32,
        index: u32,
        psn: u32,
        state: u8,
    },
    // Of this slot.
    Step(usize),
    Collect(usize),
    Reset,
}

#[derive(Clone, Copy)]
pub struct Call {
    pub operation: Operation,
    // The slots lent.
    pub row: usize,
    pub unusual: Option<Unusual>,
}

impl Call {
    fn usual(operation: Operation) -> Call {
        Call {
            operation,
            row: 8,
            unusual: None,
        }
    }

    pub fn but(self, what: Unusual) -> Call {
        Call {
            unusual: Some(what),
            ..self
        }
    }

    pub fn row_of(self, slots: usize) -> Call {
        Call { row: slots, ..self }
    }

    pub fn has(self, what: Unusual) -> bool {
        self.unusual == Some(what)
    }
}

pub fn modified(op: u16, in_modifier: u32, op_modifier: u8) -> Call {
    Call::usual(Operation::Command {
        op,
        op_modifier,
        in_modifier,
    })
}

pub fn command(op: u16, in_modifier: u32) -> Call {
    modified(op, in_modifier, 0)
}

// An engine request that writes. The state is a byte, which may be no state's code.
pub fn write_code(request: u32, index: u32, psn: u32, state: u8) -> Call {
    Call::usual(Operation::Engine {
        request,
        index,
        psn,
        state,
    })
}

pub fn write(request: u32, index: u32, psn: u32, state: State) -> Call {
    write_code(request, index, psn, code_of(state))
}

// An engine request that reads.
pub fn read(request: u32, index: u32) -> Call {
    write_code(request, index, 0, 0)
}

pub fn step(slot: usize) -> Call {
    Call::usual(Operation::Step(slot))
}

pub fn collect(slot: usize) -> Call {
    Call::usual(Operation::Collect(slot))
}

pub fn reset() -> Call {
    Call::usual(Operation::Reset)
}
