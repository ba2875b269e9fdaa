// How a book ends.
ghost use Rattle.std.specs.Prelude.{◌≡◌, ◌+◌, ◌≤◌, ◌++◌, OnOk, length, decimal, codes};
ghost use Rattle.std.specs.Io.KnownBytes.{append_known};
ghost use Rattle.arc_io.specs.Causes.{HasCause};
ghost use Rattle.arc_book.specs.Statuses.{fault_text, number_of, text_of_status};

use arc_io::{Failed, Sink, put};
use book_lines::Page;
use disk_journal::OpenFault;
use itoa::Buffer;

/// How a book ended.
#[derive(Clone, Copy)]
pub enum Status {
    /// All records were told.
    Done,
    /// The words are none of the forms. Nothing was touched.
    Usage,
    /// A read failed.
    ReadFault,
    /// A write failed.
    WriteFault,
    /// The area stands for no records: the lines are those of the records before the first that lacks, and the last line says so. The
    /// fault is neither one of the disk nor want of memory.
    Journal(OpenFault),
    /// Want of memory.
    Memory,
    /// An open gate stands 2^40 bytes behind the area's front, or further.
    Spent,
}

impl Status {
    /// The number that the program ends with.
    pub fn number(&self) -> u8
        ensures { result ≡ number_of self.now }
    {
        match self {
            Status::Done => 0,
            Status::Usage => 1,
            Status::ReadFault => 3,
            Status::WriteFault => 4,
            Status::Journal(_) => 6,
            Status::Memory => 10,
            Status::Spent => 11,
        }
    }

    /// Writes the text of the status: one line with LF, and nothing for Done. Failed comes only where the sink failed.
    #[tactic(auto, using(arc_io::proofs::KnownMore::known_none), unfolding(crate::specs::Statuses::text_of_status))]
    pub fn text<K: Sink>(&self, out: &mut K) -> Result<(), Failed>
        ensures all { OnOk result ((K.seen out.new).written ≡ append_known (K.seen out.old).written (text_of_status self.now)) }
        ensures cause { HasCause (K.seen out.old).write_faults (K.seen out.new).write_faults result }
    {
        match self {
            Status::Done => Ok(()),
            Status::Usage => put(
                out,
                b"usage: arc-book [since PLACE] [until PLACE] [account NUMBER] [incident NUMBER] [operator NAME] [offset MINUTES | zone RULE] [tabs]\n",
            ),
            Status::ReadFault => put(out, b"read fault on input\n"),
            Status::WriteFault => put(out, b"write fault\n"),
            Status::Journal(fault) => tell_fault(out, *fault),
            Status::Memory => put(out, b"out of memory\n"),
            Status::Spent => put(out, b"input too long\n"),
        }
    }
}

// Writes the line that tells why an area is refused.
#[tactic(auto, using(arc_io::proofs::KnownMore::known_none))]
fn tell_fault<K: Sink>(out: &mut K, fault: OpenFault) -> Result<(), Failed>
    ensures all { OnOk result ((K.seen out.new).written ≡ append_known (K.seen out.old).written (fault_text fault)) }
    ensures cause { HasCause (K.seen out.old).write_faults (K.seen out.new).write_faults result }
{
    match fault {
        OpenFault::NotJournal { byte } => tell_place(out, b"journal: not a journal at byte ", byte),
        OpenFault::WrongVersion { .. } => put(out, b"journal: wrong version\n"),
        OpenFault::Damaged { at } => tell_place(out, b"journal: damaged at ", at),
        OpenFault::DiskFault { .. } | OpenFault::TooWide { .. } | OpenFault::Memory => Ok(()),
    }
}

// Writes a text, the number of a place, and the end of the line.
#[tactic(auto, using(arc_io::proofs::KnownMore::known_both))]
fn tell_place<K: Sink>(out: &mut K, text: &[u8], place: u64) -> Result<(), Failed>
    ensures all { OnOk result ((K.seen out.new).written ≡ append_known (K.seen out.old).written (text.now ++ decimal place ++ codes "\n")) }
    ensures cause { HasCause (K.seen out.old).write_faults (K.seen out.new).write_faults result }
{
    put(out, text)?;
    let mut buffer = Buffer::new();
    put(out, buffer.format(place).as_bytes())?;
    put(out, b"\n")
}

/// Puts the line that tells why an area is refused on a page.
pub(crate) fn put_fault(page: &mut Page, fault: OpenFault)
    requires { length page.old ≤ 65536 }
    ensures { page.new ≡ page.old ++ fault_text fault }
{
    match fault {
        OpenFault::NotJournal { byte } => put_place(page, b"journal: not a journal at byte ", byte),
        OpenFault::WrongVersion { .. } => page.put(b"journal: wrong version\n"),
        OpenFault::Damaged { at } => put_place(page, b"journal: damaged at ", at),
        OpenFault::DiskFault { .. } | OpenFault::TooWide { .. } | OpenFault::Memory => {}
    }
}

// Puts a text, the number of a place, and the end of the line.
fn put_place(page: &mut Page, text: &[u8], place: u64)
    requires room { length page.old ≤ 65536 }
    requires short { length text.now ≤ 40 }
    ensures { page.new ≡ page.old ++ text.now ++ decimal place ++ codes "\n" }
{
    page.put(text);
    page.put_number(place);
    page.put(b"\n");
}
