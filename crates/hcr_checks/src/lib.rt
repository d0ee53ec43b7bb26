// Whether the command register is well formed: fields of its words by shifts and masks.
#![tactic(auto)]

ghost use Rattle.std.specs.Prelude.{◌≡◌, ◌≤◌, length};
ghost use Rattle.words.specs.Words.{bits};
ghost use Rattle.hcr.specs.Register.{well_formed18, well_formed};

// The fields of word 18h.
fn status_of(w: u32) -> u32
    ensures { result ≡ bits 31 24 w }
{
    w >> 24 & 0xff
}

fn go_of(w: u32) -> u32
    ensures { result ≡ bits 23 23 w }
{
    w >> 23 & 1
}

fn reserved_of(w: u32) -> u32
    ensures { result ≡ bits 21 20 w }
{
    w >> 20 & 3
}

// What stands below the token in word 14h.
fn below_token_of(w: u32) -> u32
    ensures { result ≡ bits 15 0 w }
{
    w & 0xffff
}

// Word 18h: go is 1, status and the unnamed bits are 0.
fn well_formed_18(w: u32) -> bool
    ensures { result ≡ well_formed18 w }
{
    if go_of(w) != 1 {
        return false;
    }
    if status_of(w) != 0 {
        return false;
    }
    reserved_of(w) == 0
}

// The register: its word 18h, and 0 below the token.
pub fn well_formed(hcr: &[u8]) -> bool
    requires { 28 ≤ length hcr.now }
    ensures { result ≡ well_formed hcr.now }
{
    if !well_formed_18(words::read_le32(hcr, 0x18)) {
        return false;
    }
    below_token_of(words::read_le32(hcr, 0x14)) == 0
}
