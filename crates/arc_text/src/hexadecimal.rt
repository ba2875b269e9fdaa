// Hexadecimal texts.
ghost use Rattle.std.specs.Prelude.{◌≡◌, ◌<◌, IfSome};
ghost use Rattle.arc_text.specs.Words.{hex_digit_of, hex_word_of};

/// The number that four hexadecimal digits spell, in either case, the highest first. None for any other text.
pub fn hex_word(bytes: &[u8]) -> Option<u16>
    ensures { result ≡ hex_word_of bytes.now }
{
    let [a, b, c, d] = bytes else {
        return None;
    };
    let high = u16::from(hex_digit(*a)?) * 16 + u16::from(hex_digit(*b)?);
    let low = u16::from(hex_digit(*c)?) * 16 + u16::from(hex_digit(*d)?);
    Some(high * 256 + low)
}

// What a byte stands for as a hexadecimal digit.
fn hex_digit(byte: u8) -> Option<u8>
    ensures value { result ≡ hex_digit_of byte }
    ensures small { IfSome result (λ d. d < 16) }
{
    match byte {
        b'0'..=b'9' => Some(byte - b'0'),
        b'A'..=b'F' => Some(byte - b'A' + 10),
        b'a'..=b'f' => Some(byte - b'a' + 10),
        _ => None,
    }
}
