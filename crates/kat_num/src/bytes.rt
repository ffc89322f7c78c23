//! The bytes that words, numbers and names are made of.
ghost use Rattle.std.specs.Prelude.{◌≡◌};
ghost use Rattle.kat_num.specs.Bytes.{is_digit, is_letter, is_name_byte, is_word_byte, is_word_start};

/// Whether the byte is a digit.
#[inline(always)]
pub fn is_digit(byte: u8) -> bool
    ensures { result ≡ is_digit byte }
{
    48 <= byte && byte <= 57
}

/// Whether the byte is a letter of ASCII.
#[inline(always)]
pub fn is_letter(byte: u8) -> bool
    ensures { result ≡ is_letter byte }
{
    (65 <= byte && byte <= 90) || (97 <= byte && byte <= 122)
}

/// Whether a word may begin with the byte: a letter or `_`.
#[inline(always)]
pub fn is_word_start(byte: u8) -> bool
    ensures { result ≡ is_word_start byte }
{
    is_letter(byte) || byte == b'_'
}

/// Whether a word may go on with the byte: a letter, `_` or a digit.
#[inline(always)]
pub fn is_word_byte(byte: u8) -> bool
    ensures { result ≡ is_word_byte byte }
{
    is_word_start(byte) || is_digit(byte)
}

/// Whether a name may have the byte: that of a word, `.` or `-`.
#[inline(always)]
pub fn is_name_byte(byte: u8) -> bool
    ensures { result ≡ is_name_byte byte }
{
    is_word_byte(byte) || byte == b'.' || byte == b'-'
}
