// The numbers of a script's line.
#![tactic(auto)]

ghost use Rattle.std.specs.Prelude.{◌≡◌};
ghost use Rattle.script_lines.specs.Lines.{numbers_of};
ghost use Rattle.script_lines.specs.declared.LineError.TheVariants.{Io};

use std::io;

// Why a line was not run.
#[derive(Clone, Copy)]
pub enum LineError {
    // It is none of the format.
    Format,
    // Its answer could not be written.
    Io(io::Error),
}

impl From<io::Error> for LineError {
    ghost from_gives = { λ error made. made ≡ Io error };

    fn from(error: io::Error) -> LineError {
        LineError::Io(error)
    }
}

pub type LineResult<T> = Result<T, LineError>;

// Reads the words from `from` on as numbers, if there are `count` of them, eight at most, and each is
// one; behind them there are zeros.
pub fn numbers(line: &[u8], from: usize, count: usize) -> Option<[u32; 8]>
    ensures { result ≡ numbers_of line.now from count }
{
    let words = script_words::words(line);
    if words < from {
        return None;
    }
    if words - from != count {
        return None;
    }
    if 8 < count {
        return None;
    }
    let mut numbers = [0; 8];
    for i in 0..count {
        let word = script_words::word(line, from + i);
        numbers[i] = script_numbers::number(word, 0xffffffff)?;
    }
    Some(numbers)
}
