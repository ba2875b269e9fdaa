// The places of the script, and the part that stands at each.
ghost use Rattle.std.specs.Prelude.{◌≡◌, ◌≤◌, ◌<◌, ◌++◌, [], length, IfSome, IfNone};
ghost use Rattle.arc_drill.specs.Places.{text_from, number_of, last_of};

use crate::lines::Lines;
use crate::texts::{BEGINNING, put_clock, put_closing, put_login, put_messages};

// How many incidents the operator closes.
const CLOSINGS: u32 = 20;

/// A place of the script.
#[derive(Clone, Copy, Debug)]
pub enum Next {
    /// Before the line that sets the clock first.
    Beginning,
    /// Before the message of this number, or before the operator's login where there is no such message.
    Message(u32),
    /// Before the closing of the incident of this number, or at the end.
    Closing(u32),
}

/// Puts the part of a script of so many messages that stands at this place, in place of other lines, and gives the place behind it. At the
/// end there is none, and the lines stay.
pub(crate) fn put_part(lines: &mut Lines, messages: u32, next: Next) -> Option<Next>
    requires few { messages ≤ 100_000 }
    requires from_one { 1 ≤ number_of next }
    requires to_last { number_of next ≤ last_of messages next }
    ensures split { IfSome result (λ behind. text_from messages next ≡ lines.new ++ text_from messages behind) }
    ensures some { IfSome result (λ behind. 0 < length lines.new) }
    ensures from_one { IfSome result (λ behind. 1 ≤ number_of behind) }
    ensures to_last { IfSome result (λ behind. number_of behind ≤ last_of messages behind) }
    ensures end { IfNone result (text_from messages next ≡ []) }
    ensures same { IfNone result (lines.new ≡ lines.old) }
{
    match next {
        Next::Beginning => {
            put_clock(lines, BEGINNING);
            Some(Next::Message(1))
        }
        Next::Message(i) if i <= messages => {
            put_messages(lines, i);
            Some(Next::Message(i + 1))
        }
        Next::Message(_) => {
            put_login(lines);
            Some(Next::Closing(1))
        }
        Next::Closing(k) if k <= CLOSINGS => {
            put_closing(lines, k);
            Some(Next::Closing(k + 1))
        }
        Next::Closing(_) => None,
    }
}
