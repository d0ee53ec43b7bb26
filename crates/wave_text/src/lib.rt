// The lines of a value change dump (VCD, IEEE 1364), written to standard output.
#![tactic(auto)]

use script_print::text;
use std::io;

// The byte that stands for signal `i` in the dump: a printable character behind `#` and `$`, which start other lines.
fn identifier(i: usize) -> u8 {
    (37 + i % 80) as u8
}

fn print_identifier(rt: &impl Print, i: usize) -> io::Result<()> {
    text(rt, &[identifier(i)])
}

// A scope of signals, which `leave` ends.
pub fn enter(rt: &impl Print, name: &[u8]) -> io::Result<()> {
    text(rt, b"$scope module ")?;
    text(rt, name)?;
    text(rt, b" $end\n")
}

pub fn enter_slot(rt: &impl Print, k: usize) -> io::Result<()> {
    println!(rt; "$scope module slot{k} $end")
}

pub fn leave(rt: &impl Print) -> io::Result<()> {
    text(rt, b"$upscope $end\n")
}

// Declares signal `i`: `kind` has its type and its width.
pub fn declare(rt: &impl Print, kind: &[u8], i: usize, name: &[u8]) -> io::Result<()> {
    text(rt, b"$var ")?;
    text(rt, kind)?;
    text(rt, b" ")?;
    print_identifier(rt, i)?;
    text(rt, b" ")?;
    text(rt, name)?;
    text(rt, b" $end\n")
}

// The time from which the changes behind it hold, and the line of the script that made them.
pub fn print_time(rt: &impl Print, time: u64, line: u64) -> io::Result<()> {
    println!(rt; "#{time}\n$comment line {line} $end")
}

// Signal `i`, of one bit, becomes `bit`: 0 or 1, or 1 for an event that happens.
pub fn print_bit(rt: &impl Print, i: usize, bit: u64) -> io::Result<()> {
    text(rt, &[b'0' + (bit % 2) as u8, identifier(i), b'\n'])
}

// Signal `i`, of some bits, becomes a number. The line is one write.
pub fn print_bits(rt: &impl Print, i: usize, value: u64) -> io::Result<()> {
    let name = char::from(identifier(i));
    println!(rt; "b{value:b} {name}")
}

// Signal `i`, of some bits, has no value.
pub fn print_absent(rt: &impl Print, i: usize) -> io::Result<()> {
    text(rt, b"bz ")?;
    print_identifier(rt, i)?;
    text(rt, b"\n")
}

// Signal `i`, a text, becomes this one.
pub fn print_word(rt: &impl Print, i: usize, word: &[u8]) -> io::Result<()> {
    text(rt, b"s")?;
    text(rt, word)?;
    text(rt, b" ")?;
    print_identifier(rt, i)?;
    text(rt, b"\n")
}
