// The classes of bytes that the lexer tells apart.
ghost use Rattle.std.specs.Prelude.{◌≡◌, length};
ghost use Rattle.std.specs.List.{take_while};
ghost use Rattle.gcl_reader.specs.Tokens.{is_blank, is_brace, is_word};

#[tactic(auto, unfolding(crate::specs::Tokens::is_blank))]
pub fn is_blank(byte: u8) -> bool
    ensures { result ≡ is_blank byte }
{
    byte == b' ' || byte == b'\t' || byte == b'\r' || byte == b'\n'
}

#[tactic(auto, unfolding(crate::specs::Tokens::is_brace))]
pub fn is_brace(byte: u8) -> bool
    ensures { result ≡ is_brace byte }
{
    byte == b'{' || byte == b'}'
}

/// Whether a byte can stand in a token that is no brace.
#[tactic(auto, unfolding(crate::specs::Tokens::is_word))]
pub fn is_word(byte: u8) -> bool
    ensures { result ≡ is_word byte }
{
    b'!' <= byte && byte <= b'~' && byte != b'%' && !is_brace(byte)
}

/// How many bytes of a word stand in front.
pub fn word_len(bytes: &[u8]) -> usize
    ensures { result ≡ length (take_while is_word bytes.now) }
{
    bytes.iter().take_while(|byte| is_word(**byte)).count()
}
