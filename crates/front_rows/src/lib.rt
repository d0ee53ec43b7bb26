// The front of a row of nine slots: how many of them a wrapper lends.
#![tactic(auto)]

ghost use Rattle.std.specs.Prelude.{◌≡◌, min};

use slots::Slot;

// What a wrapper hands back: the operation's answer, and the nine slots.
#[derive(Clone, Copy)]
pub struct FrontAnswer<A> {
    pub answer: A,
    pub row: [Slot; 9],
}

// As many as are asked for, and all nine at most.
pub fn front(n: usize) -> usize
    ensures { result ≡ min n 9 }
{
    if n > 9 {
        return 9;
    }
    n
}
