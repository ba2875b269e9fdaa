// Texts, messages and signals that several of these tests tell.
ghost use Rattle.std.specs.Prelude.{◌≡◌};

use arc_data::{Blob, Carried, Class, Kind, Message, Signal, StepList, Token, Txt};
use std::alloc::Global;
use std::process::Abort;

/// A short text.
pub(crate) fn text(rt: &impl Abort, bytes: &[u8]) -> Txt {
    Txt::of(bytes).expect(rt, "a short text")
}

/// A burglary of this account, with this sequence.
pub(crate) fn message(rt: &impl Abort, alloc: Global, account: Txt, seq: u16) -> Message
    ensures { result.account ≡ account }
{
    Message {
        account,
        receiver: None,
        line: text(rt, b"0"),
        seq,
        token: Token::AdmCid,
        content: Blob::of(alloc, b"1131 01 001").expect(rt, "memory"),
    }
}

/// A signal of an account, by no line and without steps.
pub(crate) fn carried(account: Txt, signal: Signal, at: u64, by_tick: bool) -> Carried
    ensures at { result.at ≡ at }
    ensures account { result.account ≡ account }
{
    Carried {
        account,
        signal,
        at,
        by_tick,
        steps: StepList::new(),
        via: Txt::empty(),
    }
}

/// What a signal says, under the code 130.
pub(crate) fn signal(rt: &impl Abort, class: Class, kind: Kind) -> Signal {
    Signal {
        class,
        kind,
        code: text(rt, b"130"),
    }
}
