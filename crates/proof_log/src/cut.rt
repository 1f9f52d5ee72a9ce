ghost use Rattle.std.specs.Prelude.{◌≡◌, ◌++◌, length, not, ◌==◌};
ghost use Rattle.std.specs.List.{take_while};
ghost use Rattle.desk_io.specs.Characters.{line_feed};
ghost use Rattle.proof_log.specs.Cuts.{Avoids, EndsAt};

use memchr::memchr;

/// The length of what stands before the first such byte.
fn front_len(byte: u8, text: &[u8]) -> usize
    ensures { result ≡ length (take_while (λ b. not (b == byte)) text.now) }
{
    text.iter().take_while(|b| **b != byte).count()
}

/// The text up to the first such byte, and the text from there on.
pub fn cut(byte: u8, text: &[u8]) -> (&[u8], &[u8])
    ensures parts { text.now ≡ result.0.now ++ result.1.now }
    ensures front { Avoids byte result.0.now }
    ensures behind { EndsAt byte result.1.now }
{
    text.split_at(front_len(byte, text))
}

/// The text up to the first LF, and the text from there on.
pub fn cut_line(text: &[u8]) -> (&[u8], &[u8])
    ensures parts { text.now ≡ result.0.now ++ result.1.now }
    ensures front { Avoids line_feed result.0.now }
    ensures behind { EndsAt line_feed result.1.now }
{
    match memchr(b'\n', text) {
        Some(at) => text.split_at(at),
        None => (text, &[]),
    }
}
