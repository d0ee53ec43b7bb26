// The slots of a row that the caller lends: all eight taken out or put back, and one put back.
#![tactic(auto)]

ghost use Rattle.std.specs.Prelude.{◌≡◌, length, set};

use slots::Slot;

// The eight slots of a row that has eight.
pub fn load(row: &[Slot]) -> [Slot; 8]
    requires { length row.now ≡ 8 }
    ensures { result ≡ row.now }
{
    [
        row[0], row[1], row[2], row[3], row[4], row[5], row[6], row[7],
    ]
}

// Eight slots put into a row that has eight.
pub fn save(row: &mut [Slot], v: [Slot; 8])
    requires { length row.old ≡ 8 }
    ensures { row.new ≡ v }
{
    row[0] = v[0];
    row[1] = v[1];
    row[2] = v[2];
    row[3] = v[3];
    row[4] = v[4];
    row[5] = v[5];
    row[6] = v[6];
    row[7] = v[7];
}

// One slot put into a row; past its end there is none to replace.
pub fn put(row: &mut [Slot], i: usize, v: Slot)
    ensures { row.new ≡ set row.old i v }
{
    if i >= row.len() {
        return;
    }
    row[i] = v;
}
