// The book of an area.
ghost use Rattle.std.specs.Prelude.{◌≡◌, ◌≤◌, ◌++◌, ℕ, List, Option, false, length};
ghost use Rattle.arc_io.specs.Seen.{PortSeen};
ghost use Rattle.book_lines.specs.Asked.{AreInRange};
ghost use Rattle.book_lines.specs.declared.options.Options.{Options};
ghost use Rattle.arc_book.specs.Compiled.{IsCompiled};
ghost use Rattle.arc_book.specs.Statuses.{IsTold, last_line};

use crate::compile::compile;
use crate::status::{Status, put_fault};
use crate::tape::Tape;
use arc_io::{Sink, Source, put};
use book_lines::{Options, Page};
use std::alloc::Global;

/// Writes the book of an area, the bytes of which the source gives: a line of each record that the options ask for, the oldest first. Where
/// the area begins with a summary, its line is the first one, if the options ask for it, and the numbers of the records go on from its own.
/// The records are those for which the bytes stand. Where they stand for none, the records are those before the first that lacks, and a last
/// line says why the area is refused, as the status does. Memory is taken for the accounts and the open incidents, for the longest record or
/// the summary, and for some pages, and not for the records.
pub fn book<S: Source, K: Sink>(
    alloc: Global,
    options: &Options,
    source: &mut S,
    sink: &mut K,
) -> Status
    requires ended { (S.seen source.old).ended ≡ false }
    requires range { AreInRange options.now }
    ensures { IsTold options.now result (S.seen source.old).left (S.seen source.old) (S.seen source.new) (K.seen sink.old) (K.seen sink.new) }
{
    let (Ok(mut page), Ok(mut tape)) = (Page::new(alloc), Tape::new(alloc)) else {
        return Status::Memory;
    };
    let status = compile(alloc, options, source, sink, &mut tape, &mut page);
    finish(status, &mut page, sink)
}

// Writes what is left on the page, and the line of a refusal.
fn finish<K: Sink>(status: Status, page: &mut Page, sink: &mut K) -> Status
    requires short { length page.old ≤ 65536 }
    ensures { (options : Options) (all : Option (List ℕ)) (s s' k : PortSeen) → IsCompiled options status all s s' k (K.seen sink.old) page.old
        → IsTold options result all s s' k (K.seen sink.new) }
{
    if let Status::WriteFault = status {
        return status;
    }
    put_last(page, status);
    match put(sink, page.bytes()) {
        Ok(()) => status,
        Err(_) => Status::WriteFault,
    }
}

// Puts the line of a refusal on the page.
fn put_last(page: &mut Page, status: Status)
    requires short { length page.old ≤ 65536 }
    ensures { page.new ≡ page.old ++ last_line status }
{
    if let Status::Journal(fault) = status {
        put_fault(page, fault);
    }
}
