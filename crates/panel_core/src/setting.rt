// How a panel may be set up, and the numbers of its messages.
ghost use Rattle.std.specs.Prelude.{◌≡◌, ◌≤◌};
ghost use Rattle.std.specs.List.{list_all};
ghost use Rattle.arc_data.specs.Digits.{is_between, is_capital_hex, is_hex, is_run};
ghost use Rattle.panel_rules.specs.Panels.{next_number};

use alarm_rules::are_hex;

// The least number of a message, and the greatest, which it follows.
const FIRST_NUMBER: u16 = 1;

const LAST_NUMBER: u16 = 9999;

/// Whether a panel may have the account: 3 to 16 hexadecimal digits in capitals.
pub fn is_panel_account(account: &[u8]) -> bool
    ensures { result ≡ is_run is_capital_hex 3 16 account.now }
{
    if account.len() < 3 || account.len() > 16 {
        return false;
    }
    are_capital_hex(account)
}

// Each byte is a hexadecimal digit, of the letters in capitals alone.
fn are_capital_hex(text: &[u8]) -> bool
    ensures { result ≡ list_all is_capital_hex text.now }
{
    text.iter().all(|byte| is_capital_hex(*byte))
}

/// 1 to 6 hexadecimal digits.
pub fn is_line(line: &[u8]) -> bool
    ensures { result ≡ is_run is_hex 1 6 line.now }
{
    line.len() >= 1 && line.len() <= 6 && are_hex(line)
}

/// 1 to 9999.
pub fn is_number(number: u16) -> bool
    ensures { result ≡ is_between 1 9999 number }
{
    number >= FIRST_NUMBER && number <= LAST_NUMBER
}

/// The number that follows. 9999 is followed by 1.
pub fn next_number(number: u16) -> u16
    requires { number ≤ 9999 }
    ensures { result ≡ next_number number }
{
    if number == LAST_NUMBER {
        FIRST_NUMBER
    } else {
        number + 1
    }
}

// A hexadecimal digit, of the letters in capitals alone.
fn is_capital_hex(byte: u8) -> bool
    ensures { result ≡ is_capital_hex byte }
{
    byte.is_ascii_digit() || byte >= b'A' && byte <= b'F'
}
