// What a running request holds, as numbers that are quick to compare (01, Bursts, slots and holds).
#![tactic(auto)]

ghost use Rattle.std.specs.Prelude.{◌≡◌};
ghost use Rattle.hold_codes.specs.Codes.{no_hold, has_code};

// The codes of the records that a running request holds, and of the one that it writes. The code of a
// record is 4 * number + kind + 1, so that 0 stands for none.
#[derive(Clone, Copy)]
pub struct Hold {
    pub first: u64,
    pub second: u64,
    pub third: u64,
    pub written: u64,
}

// What a slot holds that is not running.
pub fn nothing() -> Hold
    ensures { result ≡ no_hold }
{
    Hold {
        first: 0,
        second: 0,
        third: 0,
        written: 0,
    }
}

// Whether the record of this code is held.
pub fn has(hold: Hold, code: u64) -> bool
    ensures { result ≡ has_code hold code }
{
    if hold.first == code {
        return true;
    }
    if hold.second == code {
        return true;
    }
    hold.third == code
}
