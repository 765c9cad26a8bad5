//! Decimal and hexadecimal numbers, without leading zeros. A hexadecimal number is written after `0x`.
ghost use Rattle.std.specs.Prelude.{◌≡◌};
ghost use Rattle.rmm_trace.specs.Numbers.{digit_of, value_after, plain_value};

// The value of a digit, or 16 if the byte is not a digit.
fn digit(byte: u8) -> u8
    ensures { result ≡ digit_of byte }
{
    if byte >= b'0' && byte <= b'9' {
        byte - b'0'
    } else if byte >= b'a' && byte <= b'f' {
        byte - b'a' + 10
    } else {
        16
    }
}

// The 64-bit number that the digits spell in a base.
fn value(base: u64, digits: &[u8]) -> Option<u64>
    ensures { result ≡ value_after base 0 digits.now }
{
    let mut value: u64 = 0;
    for byte in digits {
        let digit = u64::from(digit(*byte));
        if digit >= base {
            return None;
        }
        value = value.checked_mul(base)?.checked_add(digit)?;
    }
    Some(value)
}

/// Returns the 64-bit number that the digits spell in a base, if any. There must be a digit, and no leading zeros.
pub(crate) fn plain_value(base: u64, digits: &[u8]) -> Option<u64>
    ensures { result ≡ plain_value base digits.now }
{
    match digits {
        [] => None,
        [b'0', _, ..] => None,
        _ => value(base, digits),
    }
}
