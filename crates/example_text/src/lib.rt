// How the programs that run document 01's examples print one: its label, what the model answers, what
// 01 gives, and whether the two are the same. And a queue pair's state: its name, and its code as 01 lists it.
#![tactic(auto)]

ghost use Rattle.std.specs.Prelude.{◌≡◌};
ghost use Rattle.edges.specs.States.{state_code};

use edges::State;
use std::convert::AsSlice;
use std::fmt::Display;
use std::{fmt, io};

// A number returned, which is printed as document 01 writes it: `accepted` for 0, a digit, or 0x and
// hex digits.
#[derive(Clone, Copy, PartialEq, Eq)]
pub struct Number(pub u64);

impl Display for Number {
    fn fmt<W: fmt::Write>(&self, f: &mut fmt::Formatter<W>) -> fmt::Result {
        let number = self.0;
        match number {
            0 => write!(f, "accepted"),
            1..=9 => write!(f, "{number}"),
            _ => write!(f, "0x{number:x}"),
        }
    }
}

// A state, which is printed by its name.
#[derive(Clone, Copy)]
pub struct StateName(pub State);

impl Display for StateName {
    fn fmt<W: fmt::Write>(&self, f: &mut fmt::Formatter<W>) -> fmt::Result {
        let name = match self.0 {
            State::Reset => "RESET",
            State::Init => "INIT",
            State::Rtr => "RTR",
            State::Rts => "RTS",
            State::Sqe => "SQE",
            State::Sqd => "SQD",
            State::Err => "ERR",
        };
        write!(f, "{name}")
    }
}

// Every state, by rising code.
pub const STATES: [State; 7] = [
    State::Reset,
    State::Init,
    State::Rtr,
    State::Rts,
    State::Sqe,
    State::Sqd,
    State::Err,
];

// A state's code as document 01 lists it, in numbers of its own: what is expected of the model is made
// of these, and of no function of the model.
pub fn code_of(state: State) -> u8
    ensures { result ≡ state_code state }
{
    match state {
        State::Reset => 0,
        State::Init => 1,
        State::Rtr => 2,
        State::Rts => 3,
        State::Sqe => 4,
        State::Sqd => 5,
        State::Err => 6,
    }
}

// A state code, and the name of the state that has it; a code above 6 has none.
pub fn print_code(rt: &impl Print, code: u8) -> io::Result<()> {
    print!(rt; "{code}")?;
    let found = STATES.into_iter().find(|state| u8::from(*state) == code);
    if let Some(state) = found {
        let name = StateName(state);
        print!(rt; " {name}")?;
    }
    Ok(())
}

// What is found, what is given, and whether they are the same, to the end of the line.
pub fn print_compared<T: Display + PartialEq + Drop>(
    rt: &impl Print,
    found: T,
    given: T,
) -> io::Result<()> {
    let verdict = if found == given { "ok" } else { "WRONG" };
    println!(rt; "{found}, expected {given}: {verdict}")
}

// The label is text, or bytes that are printed as they are.
pub fn check<T: Display + PartialEq + Drop>(
    rt: &impl Print,
    label: impl AsSlice<u8> + Drop,
    found: T,
    given: T,
) -> io::Result<()> {
    rt.write_all(label.as_slice())?;
    print!(rt; ": ")?;
    print_compared(rt, found, given)
}

pub fn check_number(
    rt: &impl Print,
    label: impl AsSlice<u8> + Drop,
    found: u64,
    given: u64,
) -> io::Result<()> {
    check(rt, label, Number(found), Number(given))
}
