// Bytes in a script: lower-case hexadecimal pairs, or `-` for none.
#![tactic(auto)]

ghost use Rattle.std.specs.Prelude.{◌≡◌, ◌<◌};
ghost use Rattle.words.specs.Maps.{map_from};
ghost use Rattle.script_bytes.specs.Bytes.{all_digits, count_of, pair_of, byte_of, character_of, text_of, Front};

use script_numbers::digit;

// How many of `n` bytes a slice has.
pub fn front(n: usize, bytes: &[u8]) -> usize
    ensures { Front n bytes.now result }
{
    n.min(bytes.len())
}

// Whether every character of a word is a hexadecimal digit.
fn all_digits(word: &[u8]) -> bool
    ensures { result ≡ all_digits word.now }
{
    word.iter().all(|character| digit(*character).is_some())
}

// How many bytes a word stands for.
pub fn count(word: &[u8]) -> Option<usize>
    ensures { result ≡ count_of word.now }
{
    if script_words::same(word, b"-") {
        return Some(0);
    }
    if word.is_empty() {
        return None;
    }
    if word.len() % 2 != 0 {
        return None;
    }
    if !all_digits(word) {
        return None;
    }
    Some(word.len() / 2)
}

// The byte of a pair of digits. A character that is none counts as 15.
fn pair(high: u8, low: u8) -> u8
    ensures { result ≡ pair_of high low }
{
    digit(high).unwrap_or(15) % 16 * 16 + digit(low).unwrap_or(15) % 16
}

// Byte i of what a word stands for; `old` where it has none.
fn byte_at(word: &[u8], i: usize, old: u8) -> u8
    ensures { result ≡ byte_of word.now i old }
{
    if word.len() / 2 <= i {
        return old;
    }
    pair(word[2 * i], word[2 * i + 1])
}

// Puts the bytes that a word stands for into `out`, as many as fit.
pub fn fill(word: &[u8], out: &mut [u8])
    ensures { out.new ≡ map_from (byte_of word.now) 0 out.old }
{
    for (i, byte) in out.iter_mut().enumerate() {
        *byte = byte_at(word, i, *byte);
    }
}

// The character of a digit below 16.
fn character(digit: u8) -> u8
    ensures { result ≡ character_of digit }
{
    if digit < 10 {
        return digit + b'0';
    }
    digit % 16 + (b'a' - 10)
}

// Character j of the text of some bytes; `old` where it has none.
fn character_at(bytes: &[u8], j: usize, old: u8) -> u8
    ensures { result ≡ text_of bytes.now j old }
{
    let Some(byte) = bytes.get(j / 2) else {
        return old;
    };
    if j % 2 == 0 {
        return character(*byte / 16);
    }
    character(*byte % 16)
}

// Writes bytes as pairs of digits into `text`, as many as fit.
pub fn spell(bytes: &[u8], text: &mut [u8])
    ensures { text.new ≡ map_from (text_of bytes.now) 0 text.old }
{
    for (j, character) in text.iter_mut().enumerate() {
        *character = character_at(bytes, j, *character);
    }
}
