// Messages of a panel, by the line `line`.
ghost use Rattle.std.specs.Prelude.{◌≡◌, ◌≤◌, true, None, length, IfOk, codes};
ghost use Rattle.arc_data.specs.Digits.{is_run, is_hex, is_capital_hex, is_name, AreBytes};
ghost use Rattle.arc_data.specs.WellFormed.{IsWellFormed};
ghost use Rattle.centre_core.specs.Runs.{IsSubmitted};
ghost use Rattle.event_codec.specs.Spelling.{IsKept};

use arc_data::{Blob, Event, Memory, Message, Token, Txt};
use std::alloc::Global;

/// The account 1234.
pub fn account() -> Txt
    ensures formed { is_run is_capital_hex 3 16 result ≡ true }
    ensures value { result ≡ codes "1234" }
{
    Txt::of(b"1234").unwrap()
}

fn line() -> Txt
    ensures formed { is_run is_hex 1 6 result ≡ true }
    ensures value { result ≡ codes "0" }
{
    Txt::of(b"0").unwrap()
}

/// The name of a line.
pub fn via() -> Txt
    ensures formed { is_name result ≡ true }
    ensures value { result ≡ codes "line" }
{
    Txt::of(b"line").unwrap()
}

/// A burglary of this account.
pub fn burglary(alloc: Global, account: Txt, seq: u16) -> Result<Event, Memory>
    requires account { is_run is_capital_hex 3 16 account ≡ true }
    requires seq { seq ≤ 9999 }
    ensures formed { IfOk result (λ e. IsWellFormed e × IsSubmitted e × IsKept e) }
    ensures value { IfOk result (λ e. e ≡ Event.Message (record {
      account = account;
      receiver = None;
      line = codes "0";
      seq = seq;
      token = Token.AdmCid;
      content = codes "1131 01 001";
    }) (codes "line")) }
{
    message(alloc, account, seq, Token::AdmCid, b"1131 01 001")
}

/// A message of this account, with this sequence, token and content.
pub fn message(
    alloc: Global,
    account: Txt,
    seq: u16,
    token: Token,
    content: &[u8],
) -> Result<Event, Memory>
    requires account { is_run is_capital_hex 3 16 account ≡ true }
    requires seq { seq ≤ 9999 }
    requires size { length content.now ≤ 4095 }
    ensures formed { IfOk result (λ e. IsWellFormed e × IsSubmitted e × IsKept e) }
    ensures value { IfOk result (λ e. e ≡ Event.Message (record {
      account = account;
      receiver = None;
      line = codes "0";
      seq = seq;
      token = token;
      content = content.now;
    }) (codes "line")) }
{
    let message = Message {
        account,
        receiver: None,
        line: line(),
        seq,
        token,
        content: Blob::of(alloc, content)?,
    };
    Ok(Event::Message {
        message,
        via: via(),
    })
}
