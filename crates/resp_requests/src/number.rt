//! Numbers as a Redis server reads them.
ghost use Rattle.std.specs.Prelude.{◌≡◌};
ghost use Rattle.resp_requests.specs.Numbers.{number_in, is_negative};

/// The number that the digits write: no zero stands before others, and they are 19 at most.
pub(crate) fn number_of(digits: &[u8]) -> Option<u64>
    ensures { result ≡ number_in digits.now }
{
    if digits.is_empty() || digits.len() > 19 {
        return None;
    }
    if digits.len() > 1 && digits[0] == b'0' {
        return None;
    }
    let mut value = 0u64;
    'digits: for i in 0..digits.len() {
        let byte = digits[i];
        if !byte.is_ascii_digit() {
            return None;
        }
        value = value * 10 + (byte - b'0') as u64;
    }
    Some(value)
}

/// Whether the bytes write a number below zero, of 64 bits.
#[tactic(auto, unfolding(crate::specs::Numbers::is_negative))]
pub(crate) fn is_negative(bytes: &[u8]) -> bool
    ensures { result ≡ is_negative bytes.now }
{
    match bytes {
        [b'-', digits @ ..] => match number_of(digits) {
            Some(value) => value > 0 && value <= 1 << 63,
            None => false,
        },
        _ => false,
    }
}
