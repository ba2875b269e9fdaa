// Printing lines to a sink.
ghost use Rattle.std.specs.Prelude.{◌≡◌, Result};
ghost use Rattle.arc_io.specs.Told.{Puts};
ghost use Rattle.desk_wire.specs.Replies.{line_of, welcome_of};

use crate::line::Line;
use crate::texts::{put_reply, put_welcome};
use arc_data::{Reply, Txt};
use arc_io::{Failed, Sink, put};

/// Writes the one line of a reply, which ends with a line feed. It takes no memory. Failed comes only where the sink failed, and
/// then the line was not written whole.
pub fn print<K: Sink>(reply: &Reply, out: &mut K) -> Result<(), Failed>
    ensures { Puts (K.seen out.old) (K.seen out.new) result (line_of reply.now) }
{
    let mut line = Line::new();
    print_in(&mut line, reply, out)
}

/// Writes the one line of a reply, as `print` does, built in a line that is lent: what stood there counts for nothing.
pub fn print_in<K: Sink>(line: &mut Line, reply: &Reply, out: &mut K) -> Result<(), Failed>
    ensures { Puts (K.seen out.old) (K.seen out.new) result (line_of reply.now) }
{
    line.clear();
    put_reply(line, reply);
    put(out, line.bytes())
}

/// Writes the line that an operator of this name is welcomed with. It takes no memory. Failed comes only where the sink failed, and
/// then the line was not written whole.
pub fn print_welcome<K: Sink>(name: &Txt, out: &mut K) -> Result<(), Failed>
    ensures { Puts (K.seen out.old) (K.seen out.new) result (welcome_of name.now) }
{
    let mut welcome = Line::new();
    put_welcome(&mut welcome, name);
    put(out, welcome.bytes())
}
