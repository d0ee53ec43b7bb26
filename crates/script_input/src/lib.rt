// The buffer through which a script is read: what was read and is not yet run stands at its front.
#![tactic(auto)]

ghost use Rattle.std.specs.Prelude.{◌≡◌, ◌≤◌, length, take, IfOk, OnErr};

use std::io;
use std::io::Read;

pub const NEWLINE: u8 = b'\n';

// How many bytes the buffer then has, and whether the input has ended.
#[derive(Drop)]
pub struct Filled {
    pub to: usize,
    pub ended: bool,
}

// Reads once behind the first `kept` bytes, and answers how many bytes there are then. What is read is
// not known before, so the contract gives a bound; its last part follows, and is there for
// `&buffer[..r]`. The only error is the input's; it leaves a buffer of the same length, of any bytes.
fn read_behind(input: &mut impl Read, buffer: &mut [u8], kept: usize) -> io::Result<usize>
    requires { kept ≤ length buffer.old }
    ensures ok { IfOk result (λ to. (kept ≤ to) × (to ≤ length buffer.new) × (to ≡ length (take to buffer.new))) }
    ensures err { OnErr result (length buffer.new ≡ length buffer.old) }
{
    let got = input.read(&mut buffer[kept..])?;
    Ok(kept + got)
}

// How many of the first `to` bytes whole lines take: up to the last newline. The second part of the
// bound follows from the first; it is there for `&bytes[..r]`.
pub fn whole_lines(bytes: &[u8], to: usize) -> usize
    requires { to ≤ length bytes.now }
    ensures { (result ≤ to) × (result ≡ length (take result bytes.now)) }
{
    match bytes[..to].iter().rposition(|byte| *byte == NEWLINE) {
        Some(n) => n + 1,
        None => 0,
    }
}

// Moves the bytes from `from` to `to` to the front, and answers how many there are.
fn to_front(bytes: &mut [u8], from: usize, to: usize) -> usize
    ensures { result ≤ length bytes.new }
{
    if bytes.len() < to {
        return 0;
    }
    if to < from {
        return 0;
    }
    let n = to - from;
    for i in 0..n {
        bytes[i] = bytes[from + i];
    }
    n
}

// Moves the bytes from `from` to `to` to the front, and reads once behind them. The only error is the input's.
pub fn refill(
    input: &mut impl Read,
    buffer: &mut [u8],
    from: usize,
    to: usize,
) -> io::Result<Filled>
    ensures ok { IfOk result (λ filled. (filled.to ≤ length buffer.new) × (filled.to ≡ length (take filled.to buffer.new))) }
    ensures err { OnErr result (length buffer.new ≡ length buffer.old) }
{
    let kept = to_front(buffer, from, to);
    let all = read_behind(input, buffer, kept)?;
    Ok(Filled {
        to: all,
        ended: all == kept,
    })
}
