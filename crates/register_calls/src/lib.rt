// The command register for C: its fields stand in 32 lent bytes, so that a caller in C needs no struct of ours.
#![tactic(auto)]

ghost use Rattle.std.specs.Prelude.{◌≡◌, ◌+◌, ◌≤◌, length};
ghost use Rattle.words.specs.Parts.{splice};
ghost use Rattle.words.specs.Words.{le_bytes};
ghost use Rattle.hcr.specs.Register.{write_answer_number};
ghost use Rattle.register_calls.specs.Calls.{left, number_at, fields_of, command_in, read_call, write_call};

use hcr::{HcrCommand, ReadError, WriteError};

// The little-endian numbers of two and of eight bytes at `at`.
fn read_le16(s: &[u8], at: usize) -> u16
    requires { at + 2 ≤ length s.now }
    ensures { result ≡ number_at at 2 s.now }
{
    u16::from_le_bytes([s[at], s[at + 1]])
}

fn read_le64(s: &[u8], at: usize) -> u64
    requires { at + 8 ≤ length s.now }
    ensures { result ≡ number_at at 8 s.now }
{
    let low = words::read_le32(s, at);
    let high = words::read_le32(s, at + 4);
    u64::from(low) + u64::from(high) * 0x1_0000_0000
}

fn write_le16(s: &mut [u8], at: usize, v: u16)
    requires { at + 2 ≤ length s.old }
    ensures { s.new ≡ splice at (le_bytes 2 v) s.old }
{
    s[at..at + 2].copy_from_slice(&v.to_le_bytes());
}

fn write_le64(s: &mut [u8], at: usize, v: u64)
    requires { at + 8 ≤ length s.old }
    ensures { s.new ≡ splice at (le_bytes 8 v) s.old }
{
    s[at..at + 8].copy_from_slice(&v.to_le_bytes());
}

fn put_fields(fields: &mut [u8], c: HcrCommand)
    requires { 32 ≤ length fields.old }
    ensures { fields.new ≡ splice 0 (fields_of c) fields.old }
{
    write_le64(fields, 0, c.in_param);
    write_le64(fields, 8, c.out_param);
    words::write_le32(fields, 16, c.in_modifier);
    write_le16(fields, 20, c.token);
    write_le16(fields, 22, c.op);
    fields[24] = c.op_modifier;
    fields[25] = u8::from(c.event);
    words::fill(fields, 26, 6, 0);
}

// The fields of the command in the register. What stands behind the 32 bytes stays.
pub fn read_register(hcr: &[u8], fields: &mut [u8]) -> u32
    ensures { left result fields.new ≡ read_call hcr.now fields.old }
{
    if fields.len() < 32 {
        return 0x83;
    }
    let found = hcr_reader::read(hcr);
    match found {
        Ok(c) => {
            put_fields(fields, c);
            0
        }
        Err(ReadError::Short) => 0x83,
        Err(ReadError::Malformed) => 3,
    }
}

// The command that the fields have.
fn command_in(fields: &[u8]) -> HcrCommand
    requires { 32 ≤ length fields.now }
    ensures { result ≡ command_in fields.now }
{
    HcrCommand {
        in_param: read_le64(fields, 0),
        in_modifier: words::read_le32(fields, 16),
        out_param: read_le64(fields, 8),
        token: read_le16(fields, 20),
        event: fields[25] == 1,
        op_modifier: fields[24],
        op: read_le16(fields, 22),
    }
}

fn write_number(answer: Result<(), WriteError>) -> u32
    ensures { result ≡ write_answer_number answer }
{
    match answer {
        Ok(()) => 0,
        Err(WriteError::Short) => 0x83,
        Err(WriteError::BadOp) => 3,
    }
}

// The command that the fields have, written to the register. An event is 0 or 1; what stands behind it is not looked at.
pub fn write_register(hcr: &mut [u8], fields: &[u8]) -> u32
    ensures { left result hcr.new ≡ write_call hcr.old fields.now }
{
    if hcr.len() < 28 {
        return 0x83;
    }
    if fields.len() < 32 {
        return 0x83;
    }
    if fields[25] > 1 {
        return 3;
    }
    write_number(hcr_writer::write(hcr, command_in(fields)))
}
