// Numbers, and their decimal texts.
ghost use Rattle.aeth_base.specs.Number.{IsLed, number_of, with_digit};
ghost use Rattle.std.specs.Int.{div_ceil};
ghost use Rattle.std.specs.Prelude.{◌≡◌, ◌<◌, ◌↔◌, ◌++◌, IsTrue, OnOk, OnErr, decimal};

use crate::NoMemory;
use itoa::Buffer;

/// The number whose canonical decimal text this is: digits alone, with no sign, and with no leading
/// zero but in `0`. `None` exactly where the text is no such decimal of a `u64`.
pub fn read_number(text: &[u8]) -> Option<u64>
    ensures { result ≡ number_of text.now }
{
    if !is_led(text) {
        return None;
    }
    let mut value = 0;
    'digits: for i in 0..text.len() {
        value = with_digit(value, text[i])?;
    }
    Some(value)
}

// Whether there is a first byte, and a `0` only where there is no other.
fn is_led(text: &[u8]) -> bool
    ensures { IsTrue result ↔ IsLed text.now }
{
    !text.is_empty() && (text.len() == 1 || text[0] != b'0')
}

// The number with a digit behind its own; `None` where the byte is no digit, or 64 bits too few.
fn with_digit(value: u64, byte: u8) -> Option<u64>
    ensures { result ≡ with_digit value byte }
{
    if !(b'0' <= byte && byte <= b'9') {
        return None;
    }
    value.checked_mul(10)?.checked_add(u64::from(byte - b'0'))
}

/// Appends the canonical decimal text of the number. Where memory is wanting the text stays as it
/// was.
pub fn push_number(text: &mut Vec<u8>, n: u64) -> Result<(), NoMemory>
    ensures ok { OnOk result (text.new.items ≡ text.old.items ++ decimal n) }
    ensures err { OnErr result (text.new.items ≡ text.old.items) }
{
    text.extend_from_slice(Buffer::new().format(n).as_bytes())?;
    Ok(())
}

/// The quotient, rounded up.
pub fn ceil_div(a: u128, b: u128) -> u128
    requires { 0 < b }
    ensures { result ≡ div_ceil a b }
{
    a.div_ceil(b)
}
