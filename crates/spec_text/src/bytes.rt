// Kinds of bytes in a specification.
ghost use Rattle.std.specs.Prelude.{◌≡◌};
ghost use Rattle.std.specs.List.{list_all};
ghost use Rattle.spec_text.specs.Bytes.{is_blank, is_letter, is_digit, is_word_byte, is_line_byte, is_text_byte, is_sign_byte, is_sign_pair};

/// Whether the byte is a blank or a tab.
pub fn is_blank(byte: u8) -> bool
    ensures { result ≡ is_blank byte }
{
    matches!(byte, b' ' | b'\t')
}

/// Whether the byte is a letter or `_`.
pub fn is_letter(byte: u8) -> bool
    ensures { result ≡ is_letter byte }
{
    matches!(byte, b'A'..=b'Z' | b'a'..=b'z' | b'_')
}

/// Whether the byte is a digit.
pub fn is_digit(byte: u8) -> bool
    ensures { result ≡ is_digit byte }
{
    matches!(byte, b'0'..=b'9')
}

/// Whether the byte is a letter, a digit or `_`.
pub fn is_word_byte(byte: u8) -> bool
    ensures { result ≡ is_word_byte byte }
{
    is_letter(byte) || is_digit(byte)
}

/// Whether the byte may stand in a line.
pub fn is_line_byte(byte: u8) -> bool
    ensures { result ≡ is_line_byte byte }
{
    matches!(byte, b'\t' | b' '..=b'~')
}

/// Whether the byte stands for itself in a string.
pub fn is_text_byte(byte: u8) -> bool
    ensures { result ≡ is_text_byte byte }
{
    is_line_byte(byte) && !matches!(byte, b'"' | b'\\')
}

/// Whether the byte is a sign by itself.
pub fn is_sign_byte(byte: u8) -> bool
    ensures { result ≡ is_sign_byte byte }
{
    matches!(
        byte,
        b'(' | b')'
            | b','
            | b':'
            | b'.'
            | b'='
            | b'<'
            | b'>'
            | b'+'
            | b'-'
            | b'*'
            | b'/'
            | b'%'
            | b'!'
            | b'|'
            | b'?'
            | b'$'
    )
}

/// Whether the two bytes are a sign together.
pub fn is_sign_pair(first: u8, second: u8) -> bool
    ensures { result ≡ is_sign_pair first second }
{
    match second {
        b'=' => matches!(first, b'=' | b'!' | b'<' | b'>'),
        b'>' => first == b'=',
        b'&' => first == b'&',
        b'|' => first == b'|',
        _ => false,
    }
}
