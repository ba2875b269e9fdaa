// What a line says.
ghost use Rattle.std.specs.Prelude.{◌++◌, codes};
ghost use Rattle.arc_panel.specs.Reading.{IsReadAs};

use arc_data::Token;
use arc_text::dec;

// Moments lie before this one, the first of the year 10000.
const MOMENT_LIMIT: u64 = 253_402_300_800;

/// What a line says of a panel.
#[derive(Clone, Copy, Debug, PartialEq, Eq)]
pub enum PanelLine<'a> {
    /// `T MOMENT`: it does a step at this moment, in seconds since 1970 (GMT) before the year 10000.
    Step { now: u64 },
    /// `E TOKEN DATA`: it is given an event to send, whose message has this token and these data.
    Queue { token: Token, content: &'a [u8] },
    /// `R BODY`: it hears the body of a reply.
    Hear { body: &'a [u8] },
}

impl<'a> PanelLine<'a> {
    /// What a line, without its end, says. None where it has none of the forms.
    pub fn read(line: &'a [u8]) -> Option<PanelLine<'a>>
        ensures { IsReadAs line.now result }
    {
        match line {
            [b'T', b' ', rest @ ..] => step(rest),
            [b'E', b' ', rest @ ..] => queue(rest),
            [b'R', b' ', body @ ..] => Some(PanelLine::Hear { body }),
            _ => None,
        }
    }
}

// `T MOMENT`
fn step<'a>(rest: &'a [u8]) -> Option<PanelLine<'a>>
    ensures { IsReadAs (codes "T " ++ rest.now) result }
{
    let now = dec(rest)?;
    if now < MOMENT_LIMIT {
        Some(PanelLine::Step { now })
    } else {
        None
    }
}

// `E TOKEN DATA`
fn queue<'a>(rest: &'a [u8]) -> Option<PanelLine<'a>>
    ensures { IsReadAs (codes "E " ++ rest.now) result }
{
    match rest {
        [b'A', b'D', b'M', b'-', b'C', b'I', b'D', b' ', content @ ..] => Some(PanelLine::Queue {
            token: Token::AdmCid,
            content,
        }),
        [b'S', b'I', b'A', b'-', b'D', b'C', b'S', b' ', content @ ..] => Some(PanelLine::Queue {
            token: Token::SiaDcs,
            content,
        }),
        _ => None,
    }
}
