//! What the texts of the trade mean: the data of messages and the setup of a station. Definitions, and the small tests
//! that several crates share.
#![tactic(auto)]

mod names;
mod words;

ghost use Rattle.std.specs.Prelude.{◌≡◌};
ghost use Rattle.std.specs.List.{list_all};
ghost use Rattle.arc_data.specs.Digits.{is_account, is_hex};

pub use names::{are_digits, is_name, is_pin};
pub use words::Words;

/// Whether the text is an account: 3 to 16 hexadecimal digits, in either case (DC-09, the account field).
pub fn is_account(text: &[u8]) -> bool
    ensures { result ≡ is_account text.now }
{
    if text.len() < 3 || text.len() > 16 {
        return false;
    }
    are_hex(text)
}

/// Whether each byte is a hexadecimal digit, in either case.
pub fn are_hex(text: &[u8]) -> bool
    ensures { result ≡ list_all is_hex text.now }
{
    text.iter().all(|byte| is_hex(*byte))
}

/// Whether the byte is a hexadecimal digit, in either case.
pub fn is_hex(byte: u8) -> bool
    ensures { result ≡ is_hex byte }
{
    byte.is_ascii_hexdigit()
}
