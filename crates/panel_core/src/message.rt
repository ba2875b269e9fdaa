// The bytes of a message, and those that acknowledge it.
ghost use Rattle.std.specs.Prelude.{◌≡◌, ◌≤◌, ◌<◌, ◌+◌, ◌++◌, ◌∷◌, [], length, true};
ghost use Rattle.std.specs.Str.{bytes_eq};
ghost use Rattle.arc_data.specs.Digits.{is_capital_hex, is_hex, is_run};
ghost use Rattle.dc09_frame.specs.declared.header.Echo.TheVariants.{Ack};
ghost use Rattle.dc09_frame.specs.declared.limits.TheConstants.{FRAME_LIMIT};
ghost use Rattle.dc09_frame.specs.Frames.{frame_of};
ghost use Rattle.dc09_frame.specs.Headers.{echo_body, fields};
ghost use Rattle.panel_rules.specs.Panels.{body_of, header_of, sequence, token_bytes};
ghost use Rattle.panel_core.specs.Sending.{IsGood};

use arc_data::{Token, Txt};
use dc09_frame::FrameBuf;
use panel_rules::Report;

/// Makes `out` the frame of a message.
pub fn write_message(account: &Txt, line: &Txt, number: u16, report: &Report, out: &mut FrameBuf)
    requires account { is_run is_capital_hex 3 16 account.now ≡ true }
    requires line { is_run is_hex 1 6 line.now ≡ true }
    requires number { number ≤ 9999 }
    requires report { IsGood report.now }
    ensures { out.new ≡ frame_of (body_of account.now line.now number report.now) }
{
    out.begin_frame();
    out.append(quoted_token(report.token));
    append_fields(account, line, number, out);
    out.append(b"[#");
    out.append(account.bytes());
    out.append(b"|");
    out.append(report.content.bytes());
    out.append(b"]");
    out.end_frame();
}

/// Whether the body is the plain acknowledgement of the message with these fields, which have the same bytes whatever its token is.
pub fn is_ack(body: &[u8], account: &Txt, line: &Txt, number: u16, token: Token) -> bool
    requires account { length account.now ≤ 16 }
    requires line { length line.now ≤ 6 }
    requires number { number ≤ 9999 }
    ensures { result ≡ bytes_eq body.now (echo_body Ack (header_of account.now line.now number token)) }
{
    let _ = token;
    let mut ack = FrameBuf::new();
    ack.append(b"\"ACK\"");
    append_fields(account, line, number, &mut ack);
    ack.append(b"[]");
    body == ack.bytes()
}

// Puts the sequence, the `L` field and the account behind the bytes that stand there.
fn append_fields(account: &Txt, line: &Txt, number: u16, out: &mut FrameBuf)
    requires room { length out.old + (6 + length line.now + length account.now) ≤ FRAME_LIMIT }
    requires number { number ≤ 9999 }
    ensures { out.new ≡ out.old ++ sequence number ++ 76 ∷ line.now ++ 35 ∷ account.now }
{
    out.append(&sequence(number));
    out.append(b"L");
    out.append(line.bytes());
    out.append(b"#");
    out.append(account.bytes());
}

// The token in double quotes.
fn quoted_token(token: Token) -> &'static [u8]
    ensures { result.now ≡ 34 ∷ token_bytes token ++ 34 ∷ [] }
{
    match token {
        Token::SiaDcs => b"\"SIA-DCS\"",
        Token::AdmCid => b"\"ADM-CID\"",
    }
}

// A number in four digits.
fn sequence(number: u16) -> [u8; 4]
    requires { number ≤ 9999 }
    ensures { result ≡ sequence number }
{
    let hundreds = number / 100;
    let rest = number % 100;
    [
        digit(hundreds / 10),
        digit(hundreds % 10),
        digit(rest / 10),
        digit(rest % 10),
    ]
}

// A number below 10 as a digit.
fn digit(value: u16) -> u8
    requires { value < 10 }
    ensures { result ≡ 48 + value }
{
    b'0' + value as u8
}
