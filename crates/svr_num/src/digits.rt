ghost use Rattle.std.specs.Prelude.{◌≡◌};
ghost use Rattle.svr_num.specs.Digits.{digits_in, int_in};

use std::str;

/// The number that ASCII digits write, leading zeros allowed; `None` where there is no digit, another byte, or a number
/// of 2^64 or more.
pub fn read_digits(text: &[u8]) -> Option<u64>
    ensures { result ≡ digits_in text.now }
{
    if *text.first()? == b'+' {
        return None;
    }
    str::from_utf8(text).ok()?.parse().ok()
}

/// The number that ASCII digits write behind `+`, `-` or no sign; `None` where there is no digit, another byte, or a
/// number outside i64.
pub fn read_int(text: &[u8]) -> Option<i64>
    ensures { result ≡ int_in text.now }
{
    str::from_utf8(text).ok()?.parse().ok()
}
