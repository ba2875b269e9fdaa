//! What the centre answers, said of the whole history: the one-thread centre to which everything else is held.
//! Definitions, and the test which replies are recorded.
#![tactic(auto)]

ghost use Rattle.std.specs.Prelude.{◌≡◌};
ghost use Rattle.centre_rules.specs.History.{is_recorded};

use arc_data::Reply;

/// Whether an entry with this reply is recorded. The others are quiet: they change nothing.
pub fn is_recorded(reply: &Reply) -> bool
    ensures { result ≡ is_recorded reply.now }
{
    match reply {
        Reply::Adopted | Reply::Started | Reply::Taken | Reply::Heard => true,
        Reply::Raised { count } => *count > 0,
        Reply::Claimed { .. } | Reply::Recorded { .. } => true,
        Reply::Released { .. } | Reply::Closed { .. } => true,
        Reply::Repeat { .. } | Reply::Unknown => false,
        Reply::Shown(_) | Reply::Listed(_) => false,
        Reply::NotOpen { .. } | Reply::HeldBy { .. } => false,
        Reply::BusyWith { .. } | Reply::NotYours { .. } | Reply::NoneWaiting => false,
        Reply::Expected { .. } | Reply::Missing { .. } => false,
    }
}
