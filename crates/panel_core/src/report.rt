// Which data a message of a panel may report.
ghost use Rattle.std.specs.Prelude.{◌≡◌};
ghost use Rattle.std.specs.List.{list_any};
ghost use Rattle.panel_rules.specs.Panels.{is_bad, is_barred};

use arc_data::Token;
use content_signals::signals;

// The most bytes of the data: with the longest header a body has fewer than 4,095.
const CONTENT_LIMIT: usize = 3900;

/// Whether no message of a panel carries the data: it is too long, has a barred byte, or reports no signals.
pub(crate) fn is_bad(token: Token, content: &[u8]) -> bool
    ensures { result ≡ is_bad token content.now }
{
    content.len() > CONTENT_LIMIT || has_barred(content) || signals(token, content).is_none()
}

// Whether one of the bytes is barred.
fn has_barred(content: &[u8]) -> bool
    ensures { result ≡ list_any is_barred content.now }
{
    content.iter().any(|byte| is_barred(*byte))
}

// A bracket, a line feed or a carriage return.
fn is_barred(byte: u8) -> bool
    ensures { result ≡ is_barred byte }
{
    byte == b'[' || byte == b']' || byte == b'\n' || byte == b'\r'
}
