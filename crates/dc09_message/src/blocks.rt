// The blocks of a message.
ghost use Rattle.std.specs.Prelude.{◌≡◌, ◌≤◌, length};
ghost use Rattle.std.specs.List.{prefix_len};
ghost use Rattle.dc09_frame.specs.Reading.{Gives};
ghost use Rattle.dc09_message.specs.Blocks.{is_free, content_at, block_at, further_at};
ghost use Rattle.dc09_message.specs.Reading.{parts_at};

use dc09_frame::after_byte;

/// The blocks at the front of some bytes, and the tail behind them (DC-09, the data fields).
#[derive(Clone, Copy)]
pub struct Blocks<'a> {
    /// The content of the first block.
    pub first: &'a [u8],
    /// The contents of all blocks with the brackets between them: what stands before the last `]`.
    pub inside: &'a [u8],
    /// What stands behind the last `]`.
    pub tail: &'a [u8],
}

impl<'a> Blocks<'a> {
    /// Reads as many blocks as there are. None exactly where no `]` ends the first content.
    pub fn read(bytes: &'a [u8]) -> Option<Blocks<'a>>
        ensures { Gives (λ b. (b.first.now, b.inside.now, b.tail.now)) result (parts_at bytes.now) }
    {
        let (first, rest) = content_at(bytes)?;
        let tail = after_further(rest);
        let inside = &bytes[..bytes.len() - tail.len() - 1];
        Some(Blocks {
            first,
            inside,
            tail,
        })
    }
}

// The bytes before the first bracket, where that is a `]`, and what follows it.
#[tactic(auto, unfolding(crate::specs::Blocks::content_at))]
fn content_at(bytes: &[u8]) -> Option<(&[u8], &[u8])>
    ensures { Gives (λ x. (x.0.now, x.1.now)) result (content_at bytes.now) }
{
    let length = free_length(bytes);
    let rest = after_byte(b']', &bytes[length..])?;
    Some((&bytes[..length], rest))
}

// How many bytes stand before the first bracket.
fn free_length(bytes: &[u8]) -> usize
    ensures value { result ≡ prefix_len is_free bytes.now }
    ensures within { result ≤ length bytes.now }
{
    bytes.iter().take_while(|byte| is_free(**byte)).count()
}

fn is_free(byte: u8) -> bool
    ensures { result ≡ is_free byte }
{
    byte != b'[' && byte != b']'
}

// The content of a further block, and what follows it.
fn block_at(bytes: &[u8]) -> Option<(&[u8], &[u8])>
    ensures { Gives (λ x. (x.0.now, x.1.now)) result (block_at bytes.now) }
{
    content_at(after_byte(b'[', bytes)?)
}

// What follows all further blocks.
fn after_further(bytes: &[u8]) -> &[u8]
    ensures value { result.now ≡ (further_at bytes.now).1 }
    ensures within { length result.now ≤ length bytes.now }
{
    let mut rest = bytes;
    while let Some((_, later)) = block_at(rest) {
        rest = later;
    }
    rest
}
