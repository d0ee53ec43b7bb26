// The command register read: the fields of its words by shifts and masks.
#![tactic(auto)]

ghost use Rattle.std.specs.Prelude.{◌≡◌, ◌+◌, ◌*◌, ◌^◌, ◌≤◌, length};
ghost use Rattle.words.specs.Words.{bits};
ghost use Rattle.hcr.specs.Register.{param_at, command_of, read_rows, read_of, read_answer_number};

use hcr::{HcrCommand, ReadError};

// The fields of word 18h. What is narrowed is masked, so that `as` loses nothing; `try_from` would answer
// an error that cannot occur.
fn event_of(w: u32) -> u32
    ensures { result ≡ bits 22 22 w }
{
    w >> 22 & 1
}

fn op_modifier_of(w: u32) -> u8
    ensures { result ≡ bits 19 12 w }
{
    (w >> 12 & 0xff) as u8
}

fn op_of(w: u32) -> u16
    ensures { result ≡ bits 11 0 w }
{
    (w & 0xfff) as u16
}

// The token in word 14h.
fn token_of(w: u32) -> u16
    ensures { result ≡ bits 31 16 w }
{
    (w >> 16 & 0xffff) as u16
}

// A 64-bit parameter from its two words.
fn join_param(high: u32, low: u32) -> u64
    ensures { result ≡ high * 2 ^ 32 + low }
{
    u64::from(low) | u64::from(high) << 32
}

fn read_param(hcr: &[u8], at: usize) -> u64
    requires { at + 8 ≤ length hcr.now }
    ensures { result ≡ param_at at hcr.now }
{
    join_param(words::read_le32(hcr, at), words::read_le32(hcr, at + 4))
}

fn command_of(hcr: &[u8]) -> HcrCommand
    requires { 28 ≤ length hcr.now }
    ensures { result ≡ command_of hcr.now }
{
    let w = words::read_le32(hcr, 0x18);
    HcrCommand {
        in_param: read_param(hcr, 0x00),
        in_modifier: words::read_le32(hcr, 0x08),
        out_param: read_param(hcr, 0x0c),
        token: token_of(words::read_le32(hcr, 0x14)),
        event: event_of(w) == 1,
        op_modifier: op_modifier_of(w),
        op: op_of(w),
    }
}

// The command in the register's first 28 bytes (01, The command register). The contract has the
// answer and 01's number for it.
pub fn read(hcr: &[u8]) -> Result<HcrCommand, ReadError>
    ensures { (result ≡ read_of hcr.now) × (read_answer_number result ≡ read_rows hcr.now 0x83 3 0) }
{
    if hcr.len() < 28 {
        return Err(ReadError::Short);
    }
    if !hcr_checks::well_formed(hcr) {
        return Err(ReadError::Malformed);
    }
    Ok(command_of(hcr))
}
