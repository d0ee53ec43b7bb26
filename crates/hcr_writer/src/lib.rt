// The command register written: the fields of a command joined into its words.
#![tactic(auto)]

ghost use Rattle.std.specs.Prelude.{◌≡◌, ◌+◌, ◌/◌, ◌%◌, ◌^◌, ◌≤◌, ◌∷◌, [], length};
ghost use Rattle.words.specs.Parts.{splice};
ghost use Rattle.hcr.specs.Register.{le_words, word14, word18, register_of, write_rows, write_of, written_of};
ghost use Rattle.hcr.specs.Register.{write_answer_number};

use hcr::{HcrCommand, WriteError};

// Word 14h of a command.
fn join_14(token: u16) -> u32
    ensures { result ≡ word14 token }
{
    u32::from(token) << 16
}

// Word 18h of a command: go is 1, status is 0.
fn join_18(event: bool, op_modifier: u8, op: u16) -> u32
    requires { op ≤ 0xfff }
    ensures { result ≡ word18 event op_modifier op }
{
    u32::from(op) | u32::from(op_modifier) << 12 | u32::from(event) << 22 | 1 << 23
}

// The two words of a 64-bit parameter: each fits, so that `as` loses nothing.
fn high_of(v: u64) -> u32
    ensures { result ≡ v / 2 ^ 32 }
{
    (v >> 32) as u32
}

fn low_of(v: u64) -> u32
    ensures { result ≡ v % 2 ^ 32 }
{
    (v & 0xffff_ffff) as u32
}

fn write_param(hcr: &mut [u8], at: usize, v: u64)
    requires { at + 8 ≤ length hcr.old }
    ensures { hcr.new ≡ splice at (le_words (v / 2 ^ 32 ∷ v % 2 ^ 32 ∷ [])) hcr.old }
{
    words::write_le32(hcr, at, high_of(v));
    words::write_le32(hcr, at + 4, low_of(v));
}

fn write_words(hcr: &mut [u8], c: HcrCommand)
    requires { (28 ≤ length hcr.old) × (c.op ≤ 0xfff) }
    ensures { hcr.new ≡ splice 0 (register_of c) hcr.old }
{
    write_param(hcr, 0x00, c.in_param);
    words::write_le32(hcr, 0x08, c.in_modifier);
    write_param(hcr, 0x0c, c.out_param);
    words::write_le32(hcr, 0x14, join_14(c.token));
    words::write_le32(hcr, 0x18, join_18(c.event, c.op_modifier, c.op));
}

// Writes a command to the register's first 28 bytes (01, The command register).
pub fn write(hcr: &mut [u8], c: HcrCommand) -> Result<(), WriteError>
    ensures { (result ≡ write_of c hcr.old) × (write_answer_number result ≡ write_rows c hcr.old 0x83 3 0)
        × (hcr.new ≡ written_of c hcr.old) }
{
    if hcr.len() < 28 {
        return Err(WriteError::Short);
    }
    if c.op > 0xfff {
        return Err(WriteError::BadOp);
    }
    write_words(hcr, c);
    Ok(())
}
