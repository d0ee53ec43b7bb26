// The words of a script's line. They are parted by single spaces, so two spaces in a row, or one at
// the line's end, have an empty word between or behind them, which stands for nothing.
#![tactic(auto)]

ghost use Rattle.std.specs.Prelude.{◌≡◌, ◌+◌, ◌≤◌, length, drop};
ghost use Rattle.script_words.specs.Words.{one, spaces, behind, first_length, word_at, same_word};

const SPACE: u8 = 0x20;

// 1 for the space, 0 for any other character.
fn space(character: u8) -> usize
    ensures { (result ≡ one character) × (result ≤ 1) }
{
    usize::from(character == SPACE)
}

// How many words a line has.
pub fn words(line: &[u8]) -> usize
    ensures { result ≡ spaces line.now + 1 }
{
    line.iter().filter(|character| **character == SPACE).count() + 1
}

// Where word k starts, or the line's end where it has no such word.
fn word_start(line: &[u8], k: usize) -> usize
    ensures { (result ≤ length line.now) × (drop result line.now ≡ behind line.now k) }
{
    let mut left = k;
    for (i, character) in line.iter().enumerate() {
        if left == 0 {
            return i;
        }
        left -= space(*character);
    }
    line.len()
}

// How long the first word of a text is.
fn first_length(text: &[u8]) -> usize
    ensures { (result ≤ length text.now) × (result ≡ first_length text.now) }
{
    text.iter()
        .position(|character| *character == SPACE)
        .unwrap_or(text.len())
}

// Where the word that starts at `from` ends.
fn word_end(line: &[u8], from: usize) -> usize
    requires { from ≤ length line.now }
    ensures { (result ≤ length line.now) × (result ≡ from + first_length (drop from line.now)) }
{
    from + first_length(&line[from..])
}

// Word k of a line, counted from 0; no bytes where the line has no such word.
pub fn word(line: &[u8], k: usize) -> &[u8]
    ensures { result.now ≡ word_at k line.now }
{
    let from = word_start(line, k);
    let to = word_end(line, from);
    &line[from..to]
}

// Whether two words are the same.
pub fn same(a: &[u8], b: &[u8]) -> bool
    ensures { result ≡ same_word a.now b.now }
{
    a == b
}
