// The one line of what a store has.
ghost use Rattle.std.specs.Prelude.{◌++◌, codes, decimal};
ghost use Rattle.arc_io.specs.Told.{Puts};
ghost use Rattle.arc_server.specs.ServeRuns.{summary_line};

use arc_io::{Failed, Sink, put};
use centre_core::Centre;
use itoa::Buffer;

/// Writes how many entries are recorded, and how many incidents are open.
pub(crate) fn put_summary<K: Sink>(out: &mut K, centre: &Centre) -> Result<(), Failed>
    ensures { Puts (K.seen out.old) (K.seen out.new) result (summary_line centre.now.sum) }
{
    match put_counted(out, b"recorded ", centre.recorded()) {
        Ok(()) => put_open(out, centre.table().count() as u64),
        Err(fault) => Err(fault),
    }
}

// Writes how many incidents are open, and the end of the line.
fn put_open<K: Sink>(out: &mut K, count: u64) -> Result<(), Failed>
    ensures { Puts (K.seen out.old) (K.seen out.new) result ((codes ", open " ++ decimal count) ++ codes "\n") }
{
    match put_counted(out, b", open ", count) {
        Ok(()) => put(out, b"\n"),
        Err(fault) => Err(fault),
    }
}

// Writes a word and a number.
fn put_counted<K: Sink>(out: &mut K, word: &[u8], count: u64) -> Result<(), Failed>
    ensures { Puts (K.seen out.old) (K.seen out.new) result (word.now ++ decimal count) }
{
    match put(out, word) {
        Ok(()) => put_decimal(out, count),
        Err(fault) => Err(fault),
    }
}

// A number in decimal.
fn put_decimal<K: Sink>(out: &mut K, number: u64) -> Result<(), Failed>
    ensures { Puts (K.seen out.old) (K.seen out.new) result (decimal number) }
{
    let mut buffer = Buffer::new();
    put(out, buffer.format(number).as_bytes())
}
