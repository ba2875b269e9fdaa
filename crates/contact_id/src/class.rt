// The class of an event code.
ghost use Rattle.std.specs.Prelude.{◌≡◌, ◌<◌, length};
ghost use Rattle.std.specs.List.{list_all};
ghost use Rattle.arc_data.specs.Digits.{is_digit};
ghost use Rattle.alarm_rules.specs.ContactId.{contact_id_class};
ghost use Rattle.contact_id.specs.Digits.{digits_of};

use alarm_signal::Class;

// The class of a code of three hexadecimal digits. A code with letters is never listed.
pub fn class_of(code: &[u8]) -> Class
    requires { length code.now ≡ 3 }
    ensures { result ≡ contact_id_class code.now }
{
    if !are_decimal(code) {
        return Class::Unlisted;
    }
    let hundreds = u16::from(code[0] - b'0');
    let tens = u16::from(code[1] - b'0');
    let ones = u16::from(code[2] - b'0');
    class_of_number(hundreds * 100 + tens * 10 + ones)
}

// Whether each byte is a decimal digit.
fn are_decimal(code: &[u8]) -> bool
    ensures { result ≡ list_all is_digit code.now }
{
    code.iter().all(|byte| byte.is_ascii_digit())
}

// The class of the code that three decimal digits spell.
#[tactic(auto, using(crate::proofs::Sweeps::by_number_is, std::proofs::lemmas::Bool::Decides::nat_tests))]
fn class_of_number(code: u16) -> Class
    requires { code < 1000 }
    ensures { result ≡ contact_id_class (digits_of code) }
{
    match code {
        100..=102 => Class::Medical,
        110..=118 => Class::Fire,
        120..=123 => Class::Panic,
        130..=136 | 138..=140 => Class::Burglary,
        137 | 144 | 145 | 383 => Class::Tamper,
        151 | 162 => Class::Gas,
        150 | 154 | 158 | 159 => Class::Environment,
        350 | 354 => Class::CommFail,
        301 | 302 | 305 | 344 | 373 | 380 | 381 | 384 => Class::Trouble,
        400..=403 | 407..=409 | 441 => Class::OpenClose,
        454 => Class::LateClose,
        406 => Class::Cancel,
        570 => Class::Bypass,
        601 | 602 | 607 => Class::Test,
        627 | 628 => Class::Program,
        _ => Class::Unlisted,
    }
}
