//! Where a number ends, and what it writes, in one pass.
ghost use Rattle.std.specs.Prelude.{◌≡◌, ◌+◌, ◌-◌, ◌*◌, ◌<◌, ◌≤◌, ℕ, true, length, slice_range};
ghost use Rattle.std.specs.Str.Parse.{digits_value};
ghost use Rattle.kat_num.specs.Bytes.{is_digit};
ghost use Rattle.kat_lex.specs.Found.{IsCapped};
ghost use Rattle.kat_lex.specs.Pieces.{IsRun};

use kat_num::{NUMBER_LIMIT, is_digit};

/// Where the digits end that begin at the place, and the number that they write, or some number past the
/// limit if theirs is past it.
#[inline(always)]
pub fn digits_at(bytes: &[u8], from: usize) -> (usize, u64)
    requires { from ≤ length bytes.now }
    ensures run { IsRun is_digit bytes.now from result.0 }
    ensures value { IsCapped (digits_value 10 (slice_range bytes.now from result.0)) result.1 }
{
    let mut value: u64 = 0;
    for to in from..bytes.len() {
        let byte = bytes[to];
        if !is_digit(byte) {
            return (to, value);
        }
        value = with_digit(value, byte);
    }
    (bytes.len(), value)
}

/// The number with one digit more, if it isn't past the limit yet.
#[inline(always)]
fn with_digit(value: u64, byte: u8) -> u64
    requires { is_digit byte ≡ true }
    ensures { (exact : ℕ) → IsCapped exact value → IsCapped (exact * 10 + (byte - 48)) result }
{
    if value > NUMBER_LIMIT {
        value
    } else {
        value * 10 + u64::from(byte - b'0')
    }
}
