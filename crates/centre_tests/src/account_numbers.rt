// Accounts of four digits.
ghost use Rattle.std.specs.Prelude.{◌≡◌, true, length};
ghost use Rattle.std.specs.List.{list_all};
ghost use Rattle.arc_data.specs.Digits.{is_run, is_capital_hex};

use arc_data::Txt;
use std::process::Abort;

fn are_capitals(text: &[u8]) -> bool
    ensures { result ≡ list_all is_capital_hex text.now }
{
    text.iter().all(|byte| is_capital_hex(*byte))
}

fn is_capital_hex(byte: u8) -> bool
    ensures { result ≡ is_capital_hex byte }
{
    matches!(byte, b'0'..=b'9' | b'A'..=b'F')
}

/// The account of four digits, capital hexadecimal ones.
pub(crate) fn account_of(rt: &impl Abort, digits: &[u8]) -> Txt
    ensures { is_run is_capital_hex 3 16 result ≡ true }
{
    assert!(rt; digits.len() == 4 && are_capitals(digits));
    Txt::of(digits).expect(rt, "an account")
}

/// The account of a number below 10,000: its four digits.
pub(crate) fn numbered(rt: &impl Abort, number: u64) -> Txt
    ensures { is_run is_capital_hex 3 16 result ≡ true }
{
    let mut digits = *b"0000";
    for (digit, power) in digits.iter_mut().zip([1000, 100, 10, 1]) {
        *digit = b'0' + (number / power % 10) as u8;
    }
    account_of(rt, &digits)
}
