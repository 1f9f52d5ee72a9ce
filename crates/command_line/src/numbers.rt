// The number of a trial that a word tells.
ghost use Rattle.std.specs.Prelude.{◌≡◌, ◌<◌, IfSome};
ghost use Rattle.command_line.specs.Table.{trial_number};

use itoa::Buffer;

/// Trials are numbered from 0, and there are so many.
pub const TRIALS: u32 = 1_000_000;

/// The number that a word tells. It has one spelling, so neither a sign nor a zero before it.
pub fn trial_number(word: &str) -> Option<u32>
    ensures { result ≡ trial_number word.now }
{
    let Ok(number) = word.parse::<u32>() else {
        return None;
    };
    if number >= TRIALS {
        return None;
    }
    let mut buffer = Buffer::new();
    if buffer.format(number) != word {
        return None;
    }
    Some(number)
}
