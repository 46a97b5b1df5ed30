//! Hexadecimal digits of numbers, in lower case.

ghost use Rattle.std.specs.Prelude.{◌≡◌, ◌%◌, ◌∷◌, false};
ghost use Rattle.std.specs.Fmt.{digit_glyph};
ghost use Rattle.streams.specs.Text.{hex_of};

/// The last hexadecimal digit of a number.
fn digit(value: u32) -> u8
    ensures { result ≡ digit_glyph false (value % 16) }
{
    let digit = (value % 16) as u8;
    if digit < 10 {
        b'0' + digit
    } else {
        b'a' - 10 + digit
    }
}

/// The two hexadecimal digits of a byte.
pub fn two_digits(byte: u8) -> [u8; 2]
    ensures { result ≡ hex_of 2 byte }
{
    let value = u32::from(byte);
    [digit(value / 16), digit(value)]
}

/// The last four hexadecimal digits of a number.
pub fn four_digits(value: u32) -> [u8; 4]
    ensures { result ≡ hex_of 4 value }
{
    let high = value / 16 / 16;
    [
        digit(high / 16),
        digit(high),
        digit(value / 16),
        digit(value),
    ]
}

/// The eight hexadecimal digits of a number.
pub fn eight_digits(value: u32) -> [u8; 8]
    ensures { result ≡ hex_of 8 value }
{
    let [a, b, c, d] = four_digits(value / 16 / 16 / 16 / 16);
    let [e, f, g, h] = four_digits(value);
    [a, b, c, d, e, f, g, h]
}

/// A space and the two hexadecimal digits of a byte.
pub fn spaced_byte(byte: u8) -> [u8; 3]
    ensures { result ≡ 32 ∷ hex_of 2 byte }
{
    let [high, low] = two_digits(byte);
    [b' ', high, low]
}
