//! Bytes in hexadecimal digits.

ghost use Rattle.std.specs.Prelude.{◌≡◌, ◌*◌, ◌+◌, ◌≤◌, ◌/◌, ◌%◌, length, take, true};
ghost use Rattle.tp_lines.specs.Lines.{are_hex_digits, bytes_of, hex_value, is_hex_digit};

/// What a hexadecimal digit is worth.
fn hex_value(digit: u8) -> u8
    requires { is_hex_digit digit ≡ true }
    ensures value { result ≡ hex_value digit }
    ensures small { result ≤ 15 }
{
    if digit < b'a' {
        digit - b'0'
    } else {
        digit - 87
    }
}

/// Puts the bytes that pairs of hexadecimal digits write to the front of a buffer, and tells how many they are.
pub fn unhex(digits: &[u8], out: &mut [u8]) -> usize
    requires digits { are_hex_digits digits.now ≡ true }
    requires pairs { length digits.now % 2 ≡ 0 }
    requires fits { length digits.now / 2 ≤ length out.old }
    ensures bytes { take result out.new ≡ bytes_of digits.now }
    ensures count { result ≡ length digits.now / 2 }
    ensures len { length out.new ≡ length out.old }
{
    let count = digits.len() / 2;
    for i in 0..count {
        out[i] = 16 * hex_value(digits[2 * i]) + hex_value(digits[2 * i + 1]);
    }
    count
}
