// What stands before the rows of a summary.
ghost use Rattle.std.specs.Prelude.{◌≡◌, ℕ, None, Some, MatchOption};
ghost use Rattle.summary_codec.specs.Reading.{tag_at, summary_at};
ghost use Rattle.summary_codec.specs.Heads.{IsHead};

use crate::reading::{given_at, setup_given_at};
use event_codec::{byte_at, u64_at};

/// The generation, the last moment, how many entries are recorded and how many incidents were opened, the last Start, the setup text,
/// and the bytes behind them.
#[derive(Clone, Copy)]
pub struct Head<'a> {
    pub generation: u64,
    pub last: u64,
    pub recorded: u64,
    pub opened: u64,
    pub start: Option<u64>,
    pub text: Option<&'a [u8]>,
    pub rest: &'a [u8],
}

#[tactic(auto, unfolding(crate::specs::Reading::tag_at))]
fn tag_read_at(bytes: &[u8]) -> Option<&[u8]>
    ensures { MatchOption result (tag_at bytes.now ≡ None) (λ rest. tag_at bytes.now ≡ Some (11, rest.now)) }
{
    match bytes {
        [11, rest @ ..] => Some(rest),
        _ => None,
    }
}

/// What stands before the rows, which both versions have alike. None only where no summary stands there, in neither of them.
#[tactic(auto, unfolding(crate::specs::Reading::summary_at))]
pub fn head_at(bytes: &[u8]) -> Option<Head<'_>>
    ensures { MatchOption result ((version : ℕ) → summary_at version bytes.now ≡ None) (IsHead bytes.now) }
{
    let rest = tag_read_at(bytes)?;
    let (generation, rest) = u64_at(rest)?;
    let (last, rest) = u64_at(rest)?;
    let (recorded, rest) = u64_at(rest)?;
    let (opened, rest) = u64_at(rest)?;
    let (start, rest) = given_at(rest)?;
    let (text, rest) = setup_given_at(rest)?;
    Some(Head {
        generation,
        last,
        recorded,
        opened,
        start,
        text,
        rest,
    })
}
