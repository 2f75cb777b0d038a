//! Reading hexadecimal digits.
ghost use Rattle.std.specs.Prelude.{◌≡◌, ◌*◌, length, unwrap_or, true, false, Ok, None};
ghost use Rattle.std.specs.Result.{result_ok};
ghost use Rattle.hex.specs.Hex.{decode_pairs, hex_digit_value};

// The value of each byte as a digit of either case, or 16 if it is none. It is a table and not a branch, since a processor can't predict
// whether the next digit of a content is a letter.
static WORTHS: [u8; 256] = [
    16, 16, 16, 16, 16, 16, 16, 16, 16, 16, 16, 16, 16, 16, 16, 16, 16, 16, 16, 16, 16, 16, 16, 16,
    16, 16, 16, 16, 16, 16, 16, 16, 16, 16, 16, 16, 16, 16, 16, 16, 16, 16, 16, 16, 16, 16, 16, 16,
    0, 1, 2, 3, 4, 5, 6, 7, 8, 9, 16, 16, 16, 16, 16, 16, 16, 10, 11, 12, 13, 14, 15, 16, 16, 16,
    16, 16, 16, 16, 16, 16, 16, 16, 16, 16, 16, 16, 16, 16, 16, 16, 16, 16, 16, 16, 16, 16, 16, 10,
    11, 12, 13, 14, 15, 16, 16, 16, 16, 16, 16, 16, 16, 16, 16, 16, 16, 16, 16, 16, 16, 16, 16, 16,
    16, 16, 16, 16, 16, 16, 16, 16, 16, 16, 16, 16, 16, 16, 16, 16, 16, 16, 16, 16, 16, 16, 16, 16,
    16, 16, 16, 16, 16, 16, 16, 16, 16, 16, 16, 16, 16, 16, 16, 16, 16, 16, 16, 16, 16, 16, 16, 16,
    16, 16, 16, 16, 16, 16, 16, 16, 16, 16, 16, 16, 16, 16, 16, 16, 16, 16, 16, 16, 16, 16, 16, 16,
    16, 16, 16, 16, 16, 16, 16, 16, 16, 16, 16, 16, 16, 16, 16, 16, 16, 16, 16, 16, 16, 16, 16, 16,
    16, 16, 16, 16, 16, 16, 16, 16, 16, 16, 16, 16, 16, 16, 16, 16, 16, 16, 16, 16, 16, 16, 16, 16,
    16, 16, 16, 16, 16, 16, 16, 16, 16, 16, 16, 16, 16, 16,
];

// The value of a digit, or 16.
fn worth_of(digit: u8) -> u8
    ensures { result ≡ unwrap_or (hex_digit_value digit) 16 }
{
    WORTHS[digit as usize]
}

/// Writes the bytes that pairs of digits spell. Whether all are digits; if one isn't, nothing is promised of what is written.
pub(crate) fn write_bytes(digits: &[u8], bytes: &mut [u8]) -> bool
    requires { length digits.now ≡ 2 * length bytes.old }
    ensures written { result ≡ true → decode_pairs 0 digits.now ≡ Ok bytes.new }
    ensures refused { result ≡ false → result_ok (decode_pairs 0 digits.now) ≡ None }
{
    'bytes: for i in 0..bytes.len() {
        let high = worth_of(digits[2 * i]);
        let low = worth_of(digits[2 * i + 1]);
        if high > 15 || low > 15 {
            return false;
        }
        bytes[i] = high * 16 + low;
    }
    true
}
