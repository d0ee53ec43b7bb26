// What the byte rule of an edge asks: the words that it takes, whether it leaves zeros, and the state in
// byte 0. `burst_writes` moves the bytes by it.
#![tactic(auto)]

ghost use Rattle.std.specs.Prelude.{◌≡◌, eqb};
ghost use Rattle.words.specs.Choice.{within, either};
ghost use Rattle.byte_rule.specs.Taken.{takes_word, zeroes};
ghost use Rattle.byte_rule.specs.Bytes.{with_state};

use edges::{Edge, State};

// Whether first <= i <= last.
fn in_range(first: usize, last: usize, i: usize) -> bool
    ensures { result ≡ within first last i }
{
    if i < first {
        return false;
    }
    i <= last
}

// Whether a word is in a range, or is the one word beside it.
fn in_range_or(first: usize, last: usize, word: usize, w: usize) -> bool
    ensures { result ≡ either (within first last w) (eqb w word) }
{
    if in_range(first, last, w) {
        return true;
    }
    w == word
}

// The words that RTR to RTS takes.
fn takes_for_sending(w: usize) -> bool
    ensures { result ≡ either (within 0x20 0x28 w) (either (eqb w 0x6c) (eqb w 0x7c)) }
{
    if in_range(0x20, 0x28, w) {
        return true;
    }
    if w == 0x6c {
        return true;
    }
    w == 0x7c
}

// Whether an edge takes the image's word at offset w.
pub fn takes_word(edge: Edge, w: usize) -> bool
    ensures { result ≡ takes_word edge w }
{
    match edge {
        Edge::ResetToInit => in_range(0x00, 0xa0, w),
        Edge::InitToInit => in_range(0x04, 0x4c, w),
        Edge::InitToRtr => in_range_or(0x04, 0x4c, 0x84, w),
        Edge::RtrToRts => takes_for_sending(w),
        Edge::RtsToRts => in_range(0x20, 0x28, w),
        Edge::SqeToRts => w == 0x98,
        Edge::RtsToSqd => false,
        Edge::SqdToSqd => in_range_or(0x20, 0x4c, 0x98, w),
        Edge::SqdToRts => in_range_or(0x20, 0x4c, 0x98, w),
        Edge::ToErr => false,
        Edge::ToReset => false,
    }
}

// Whether an edge leaves a record that is all zero.
pub fn zeroes_record(edge: Edge) -> bool
    ensures { result ≡ zeroes edge }
{
    match edge {
        Edge::ResetToInit => false,
        Edge::InitToInit => false,
        Edge::InitToRtr => false,
        Edge::RtrToRts => false,
        Edge::RtsToRts => false,
        Edge::SqeToRts => false,
        Edge::RtsToSqd => false,
        Edge::SqdToSqd => false,
        Edge::SqdToRts => false,
        Edge::ToErr => false,
        Edge::ToReset => true,
    }
}

// Byte `at` of a queue pair's record, which was `b`, with the state set.
pub fn with_state(to: State, at: usize, b: u8) -> u8
    ensures { result ≡ with_state to at b }
{
    if at == 0 {
        return u8::from(to) * 16 + b % 16;
    }
    b
}
