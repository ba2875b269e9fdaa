// What a line of a script asks for.
ghost use Rattle.std.specs.Prelude.{◌≡◌, IfSome, IfNone};
ghost use Rattle.script_lines.specs.Lines.{Asked, IsAsked, spelling, is_skipped};
ghost use Rattle.script_lines.specs.Reading.{IsReadAs, asked};

use crate::parts::{command, feed, message, time};

/// What a line of a script asks for. Lines of the receiver have the numbers 1 to 16, desks 1 to 8.
#[derive(Clone, Copy, Debug, PartialEq, Eq)]
pub enum ScriptLine<'a> {
    /// `T MOMENT`: the clock is set, in seconds since 1970 (GMT) before the year 10000, and it ticks.
    Time { moment: u64 },
    /// `L N HEX`: a line is fed the bytes that these hexadecimal digits spell, in either case.
    Feed { line: usize, digits: &'a [u8] },
    /// `M N BODY`: a line is fed the frame of this body, and is then made anew.
    Message { line: usize, body: &'a [u8] },
    /// `D N TEXT`: this text, of at most 1,000 bytes, is a command of a desk.
    Command { desk: usize, text: &'a [u8] },
    /// `X`: all is made anew over what the journal keeps.
    Reopen,
}

impl<'a> ScriptLine<'a> {
    /// What a line, without its end, asks for. None where it has none of the forms.
    pub fn read(line: &'a [u8]) -> Option<ScriptLine<'a>>
        ensures { IsReadAs line.now result }
    {
        match line {
            [b'T', b' ', rest @ ..] => time(rest),
            [b'L', b' ', rest @ ..] => feed(rest),
            [b'M', b' ', rest @ ..] => message(rest),
            [b'D', b' ', rest @ ..] => command(rest),
            [b'X'] => Some(ScriptLine::Reopen),
            _ => None,
        }
    }
}

/// Whether a line is skipped: it is empty, or begins with `#`.
pub fn is_skipped(line: &[u8]) -> bool
    ensures { result ≡ is_skipped line.now }
{
    matches!(line, [] | [b'#', ..])
}
