// What a script's answers are printed with, to standard output.
#![tactic(auto)]

use std::io;

pub fn text(rt: &impl Print, words: &[u8]) -> io::Result<()> {
    rt.write_all(words)
}

pub fn end(rt: &impl Print) -> io::Result<()> {
    text(rt, b"\n")
}

// If answers are printed.
pub fn ok(rt: &impl Print, answers: bool) -> io::Result<()> {
    if answers {
        text(rt, b"ok\n")?;
    }
    Ok(())
}

// At most 256 bytes as pairs of digits.
fn some_bytes(rt: &impl Print, bytes: &[u8]) -> io::Result<()> {
    let mut pairs = [0u8; 512];
    script_bytes::spell(bytes, &mut pairs);
    let n = script_bytes::front(script_bytes::front(256, bytes) * 2, &pairs);
    text(rt, &pairs[..n])
}

// Bytes as a script has them: `-` for none.
pub fn bytes(rt: &impl Print, bytes: &[u8]) -> io::Result<()> {
    if bytes.is_empty() {
        return text(rt, b"-");
    }
    // Parts of exactly 256 bytes first, then the rest: the compiler leaves out the test of a length that it knows.
    let parts = bytes.chunks_exact(256);
    let rest = parts.remainder();
    for part in parts {
        some_bytes(rt, part)?;
    }
    if !rest.is_empty() {
        some_bytes(rt, rest)?;
    }
    Ok(())
}
