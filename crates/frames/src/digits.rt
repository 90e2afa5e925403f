//! Hexadecimal digits: read in either case, written in capitals.

ghost use Rattle.std.specs.Prelude.{◌≡◌, ◌<◌};
ghost use Rattle.frames.specs.Digits.{digit_of, capital, capitals};

/// What a character is worth as a hexadecimal digit: `0` to `9`, `a` to `f` or `A` to `F`.
pub fn digit(character: u8) -> Option<u8>
    ensures { result ≡ digit_of character }
{
    // A match of the character over ranges is a rule of the project.
    match char::from(character) {
        '0'..='9' => Some(character - b'0'),
        'a'..='f' => Some(character - b'a' + 10),
        'A'..='F' => Some(character - b'A' + 10),
        _ => None,
    }
}

/// The digit that is worth `value`, in capitals.
fn capital_digit(value: u8) -> u8
    requires { value < 16 }
    ensures { result ≡ capital value }
{
    if value < 10 {
        b'0' + value
    } else {
        b'A' + (value - 10)
    }
}

/// The two digits of a byte, in capitals.
pub fn hex_pair(byte: u8) -> [u8; 2]
    ensures { result ≡ capitals byte }
{
    // The kit's hex writes capitals to the heap alone, and std does not state the digits of {:02X}.
    [capital_digit(byte / 16), capital_digit(byte % 16)]
}
