//! Which bytes stand for themselves in a query.
ghost use Rattle.query_text.specs.Signs.{is_bracket, is_field_byte, is_field_start, is_mark, is_space, is_word_byte};
ghost use Rattle.std.specs.Prelude.{◌≡◌};

/// Whether a byte is one of the six characters of white space.
pub(crate) fn is_space(byte: u8) -> bool
    ensures { result ≡ is_space byte }
{
    matches!(byte, b' ' | b'\t' | b'\n' | 11 | 12 | b'\r')
}

/// Whether a byte may stand for itself in a field.
pub(crate) fn is_field_byte(byte: u8) -> bool
    ensures { result ≡ is_field_byte byte }
{
    byte.is_ascii_alphanumeric() || matches!(byte, b'_' | b'-' | b'.' | b'@' | b'/') || byte >= 128
}

/// Whether a field may begin with a byte that stands for itself.
pub(crate) fn is_field_start(byte: u8) -> bool
    ensures { result ≡ is_field_start byte }
{
    byte != b'-' && is_field_byte(byte)
}

/// Whether a byte may stand for itself in a word.
pub(crate) fn is_word_byte(byte: u8) -> bool
    ensures { result ≡ is_word_byte byte }
{
    !is_space(byte) && !is_bracket(byte) && !is_mark(byte)
}

fn is_bracket(byte: u8) -> bool
    ensures { result ≡ is_bracket byte }
{
    matches!(byte, b'(' | b')' | b'[' | b']' | b'{' | b'}')
}

fn is_mark(byte: u8) -> bool
    ensures { result ≡ is_mark byte }
{
    matches!(byte, b'"' | b'\\' | b'~' | b'^' | b'*' | b'?')
}
