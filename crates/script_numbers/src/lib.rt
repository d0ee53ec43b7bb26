// Numbers in a script: decimal, or lower-case hexadecimal after `0x`.
#![tactic(auto)]

ghost use Rattle.std.specs.Prelude.{◌≡◌, ◌+◌, ◌*◌};
ghost use Rattle.script_numbers.specs.Numbers.{digit_of, digits_of, number_of};

// The digit that a character stands for, up to 15, if it is one.
pub fn digit(character: u8) -> Option<u8>
    ensures { result ≡ digit_of character }
{
    match character {
        b'0'..=b'9' => Some(character - b'0'),
        b'a'..=b'f' => Some(character - b'a' + 10),
        _ => None,
    }
}

// A number with one digit more.
fn extended(value: u32, base: u8, digit: u8) -> u64
    ensures { result ≡ value * base + digit }
{
    u64::from(value) * u64::from(base) + u64::from(digit)
}

// The number with these digits, if there are any and it is at most `most`.
fn digits(text: &[u8], base: u8, most: u32) -> Option<u32>
    ensures { result ≡ digits_of base most text.now }
{
    if text.is_empty() {
        return None;
    }
    let mut value = 0;
    for character in text {
        let digit = digit(*character)?;
        if base <= digit {
            return None;
        }
        let next = extended(value, base, digit);
        if u64::from(most) < next {
            return None;
        }
        value = next as u32;
    }
    Some(value)
}

// The number that a word stands for, if it is at most `most`.
pub fn number(word: &[u8], most: u32) -> Option<u32>
    ensures { result ≡ number_of most word.now }
{
    match word.strip_prefix(b"0x") {
        Some(hexadecimal) => digits(hexadecimal, 16, most),
        None => digits(word, 10, most),
    }
}
