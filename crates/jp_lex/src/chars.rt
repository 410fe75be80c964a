ghost use Rattle.std.specs.Prelude.{◌≡◌};
ghost use Rattle.jp_lex.specs.Chars as spec;

/// Space, tab, line feed or carriage return.
pub(crate) fn is_white(b: u8) -> bool
    ensures { result ≡ spec.is_white b }
{
    matches!(b, b' ' | b'\t' | b'\n' | b'\r')
}

/// An ASCII letter or `_`.
pub(crate) fn is_letter(b: u8) -> bool
    ensures { result ≡ spec.is_letter b }
{
    matches!(b, b'A'..=b'Z' | b'a'..=b'z' | b'_')
}

pub(crate) fn is_digit(b: u8) -> bool
    ensures { result ≡ spec.is_digit b }
{
    b.is_ascii_digit()
}

/// A letter, `_`, a digit or `$`.
pub(crate) fn is_word_byte(b: u8) -> bool
    ensures { result ≡ spec.is_word_byte b }
{
    is_letter(b) || is_digit(b) || b == b'$'
}
