//! Numbers in text: decimal digits without leading zeros.

ghost use Rattle.std.specs.Prelude.{◌≡◌, ◌+◌, ◌*◌, ◌-◌, ◌^◌, ◌≤◌, true, MatchOption};
ghost use Rattle.std.specs.Str.{all_ascii_digits};
ghost use Rattle.tp_model.specs.Digits.{number_after};
ghost use Rattle.tp_msg.specs.Messages.{begins_as_number, device_id, is_number, transaction_id};

use tp_model::{DevId, Refusal};

fn all_digits(text: &[u8]) -> bool
    ensures { result ≡ all_ascii_digits text.now }
{
    for digit in text {
        if !digit.is_ascii_digit() {
            return false;
        }
    }
    true
}

fn begins_as_number(text: &[u8]) -> bool
    ensures { result ≡ begins_as_number text.now }
{
    let digits = text.len();
    if digits == 0 {
        return false;
    }
    if digits == 1 {
        return true;
    }
    text[0] != b'0'
}

/// Whether a text is a number, however large.
pub fn is_number(text: &[u8]) -> bool
    ensures { result ≡ is_number text.now }
{
    begins_as_number(text) && all_digits(text)
}

// The number with one digit more, where it is below 2^64.
fn with_digit(number: u64, digit: u8) -> Option<u64>
    requires { 48 ≤ digit }
    ensures { MatchOption result (2 ^ 64 ≤ 10 * number + (digit - 48)) (λ n. n ≡ 10 * number + (digit - 48)) }
{
    let value = (digit - b'0') as u64;
    if number > (u64::MAX - value) / 10 {
        return None;
    }
    Some(10 * number + value)
}

// The number that digits write, where it is below 2^64.
fn number_of(digits: &[u8]) -> Option<u64>
    requires { all_ascii_digits digits.now ≡ true }
    ensures { MatchOption result (2 ^ 64 ≤ number_after 0 digits.now) (λ n. n ≡ number_after 0 digits.now) }
{
    let mut number: u64 = 0;
    for digit in digits {
        match with_digit(number, *digit) {
            None => return None,
            Some(longer) => number = longer,
        }
    }
    Some(number)
}

/// The id of a volume that a number writes, or `BadDeviceId` where it is 16777216 or more.
pub fn device_id(number: &[u8]) -> Result<DevId, Refusal>
    requires { is_number number.now ≡ true }
    ensures { result ≡ device_id number.now }
{
    match number_of(number) {
        None => Err(Refusal::BadDeviceId),
        Some(id) => DevId::checked(id),
    }
}

/// The transaction id that a number writes, or `BadSyntax` where it is over 2^64 - 1.
pub fn transaction_id(number: &[u8]) -> Result<u64, Refusal>
    requires { is_number number.now ≡ true }
    ensures { result ≡ transaction_id number.now }
{
    match number_of(number) {
        None => Err(Refusal::BadSyntax),
        Some(id) => Ok(id),
    }
}
