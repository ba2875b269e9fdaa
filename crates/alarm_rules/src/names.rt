// Names and PINs of operators, and digits.
ghost use Rattle.std.specs.Prelude.{◌≡◌, ◌≤◌, IsTrue, length};
ghost use Rattle.std.specs.List.{list_all};
ghost use Rattle.arc_data.specs.Digits.{is_digit, is_name, is_name_byte};
ghost use Rattle.alarm_rules.specs.SetupWords.{is_pin};

/// Whether the text is the name of an operator: 1 to 16 letters, digits, `.`, `_` and `-`.
pub fn is_name(text: &[u8]) -> bool
    ensures value { result ≡ is_name text.now }
    ensures short { IsTrue result → length text.now ≤ 16 }
{
    if text.is_empty() || text.len() > 16 {
        return false;
    }
    are_name_bytes(text)
}

// Whether each byte may stand in a name.
fn are_name_bytes(text: &[u8]) -> bool
    ensures { result ≡ list_all is_name_byte text.now }
{
    text.iter().all(|byte| is_name_byte(*byte))
}

// A letter, a digit, `.`, `_` or `-`.
fn is_name_byte(byte: u8) -> bool
    ensures { result ≡ is_name_byte byte }
{
    byte.is_ascii_alphanumeric() || byte == b'.' || byte == b'_' || byte == b'-'
}

/// Whether the text is a PIN, with which an operator logs in: 4 to 8 decimal digits.
pub fn is_pin(text: &[u8]) -> bool
    ensures value { result ≡ is_pin text.now }
    ensures short { IsTrue result → length text.now ≤ 8 }
{
    if text.len() < 4 || text.len() > 8 {
        return false;
    }
    are_digits(text)
}

/// Whether each byte is a decimal digit.
pub fn are_digits(text: &[u8]) -> bool
    ensures { result ≡ list_all is_digit text.now }
{
    text.iter().all(|byte| is_digit(*byte))
}

// Whether the byte is a decimal digit.
fn is_digit(byte: u8) -> bool
    ensures { result ≡ is_digit byte }
{
    byte.is_ascii_digit()
}
