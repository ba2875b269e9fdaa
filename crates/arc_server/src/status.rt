// How a run ended.
ghost use Rattle.std.specs.Prelude.{◌≡◌, OnOk, decimal};
ghost use Rattle.std.specs.Io.KnownBytes.{append_known};
ghost use Rattle.arc_io.specs.Causes.{HasCause};
ghost use Rattle.arc_server.specs.Statuses.{number_of, text_of_status, setup_text, kind_text, at_line, at_place, counted, journal_text, full_text, behind_text};

use arc_data::{LineKind, SetupFault};
use arc_io::{Failed, Sink, put};
use arc_serving::Side;
use disk_journal::OpenFault;
use itoa::Buffer;

/// The input of a run that could not be read.
#[derive(Clone, Copy)]
pub enum Which {
    /// The setup text.
    Setup,
    /// The bytes of the line, of the desk or of the script, or the lines that are played over a panel.
    Input,
    /// The datagrams of the mailbox.
    Mail,
}

/// How a run ended, with the numbers that show its cause. Counts are those of faults at the run's entry and at its end.
#[derive(Clone, Copy)]
pub enum Status {
    /// The input was read to its end, and all of it answered.
    Done,
    /// The words are none of the forms. Nothing was touched.
    Usage,
    /// The setup text is no setup. The fault is not want of memory.
    SetupBad(SetupFault),
    /// A read failed.
    ReadFault { input: Which, before: u64, now: u64 },
    /// A write failed.
    WriteFault { before: u64, now: u64 },
    /// A call of the disk failed. What was acknowledged stands; an event that met the fault may stand, too.
    DiskFault { before: u64, now: u64 },
    /// The journal's area has other bytes than those of a journal. The fault is neither one of the disk nor want of memory.
    Journal(OpenFault),
    /// The journal has no room for a record: the bytes that it has, those that the record needs, and its records.
    Full { used: u64, need: u64, records: u64 },
    /// The line of this number, from 1, is none of a script, or comes before its first `T`; or it is none of a panel's input, or its moment
    /// falls.
    BadScript { line: u64 },
    /// Taking a connection failed at a door of this side, with the door's counts at entry and at the end.
    DoorFault { door: Side, before: u64, now: u64 },
    /// Want of memory.
    Memory,
    /// 1,099,511,627,776 bytes (2^40) of the input were read.
    Spent,
    /// The centre has 281,474,976,710,656 entries (2^48) or more.
    Worn { count: u64 },
    /// The centre that is followed has no record of what comes next here: its summary has so many recorded events, and so many are
    /// recorded here.
    Behind { have: u64, count: u64 },
    /// What stands behind so many messages of the input is none, or the input cut it short; or no event goes on with the record that it
    /// brings.
    Strange { after: u64 },
}

impl Status {
    /// The number that the program ends with.
    pub fn number(&self) -> u8
        ensures { result ≡ number_of self.now }
    {
        match self {
            Status::Done => 0,
            Status::Usage => 1,
            Status::SetupBad(_) => 2,
            Status::ReadFault { .. } => 3,
            Status::WriteFault { .. } => 4,
            Status::DiskFault { .. } => 5,
            Status::Journal(_) => 6,
            Status::Full { .. } => 7,
            Status::BadScript { .. } => 8,
            Status::DoorFault { .. } => 9,
            Status::Memory => 10,
            Status::Spent => 11,
            Status::Worn { .. } => 12,
            Status::Behind { .. } => 14,
            Status::Strange { .. } => 15,
        }
    }

    /// Writes the text of the status: one line with LF, and nothing for Done. Failed comes only where the sink failed.
    #[tactic(auto, using(arc_io::proofs::KnownMore::known_none), unfolding(crate::specs::Statuses::text_of_status))]
    pub fn text<K: Sink>(&self, out: &mut K) -> Result<(), Failed>
        ensures all { OnOk result ((K.seen out.new).written ≡ append_known (K.seen out.old).written (text_of_status self.now)) }
        ensures cause { HasCause (K.seen out.old).write_faults (K.seen out.new).write_faults result }
    {
        match self {
            Status::Done => Ok(()),
            Status::Usage => put(
                out,
                b"usage: line | desk | script | report | drill N | serve LINES DESKS SESSIONS | panel ACCOUNT | feed | mirror | udp N | gather LINES DESKS SESSIONS\n",
            ),
            Status::SetupBad(fault) => put_setup(out, *fault),
            Status::ReadFault {
                input: Which::Setup,
                ..
            } => put(out, b"read fault on setup\n"),
            Status::ReadFault {
                input: Which::Input,
                ..
            } => put(out, b"read fault on input\n"),
            Status::ReadFault {
                input: Which::Mail,
                ..
            } => put(out, b"read fault on mail\n"),
            Status::WriteFault { .. } => put(out, b"write fault\n"),
            Status::DiskFault { .. } => put(out, b"disk fault\n"),
            Status::Journal(fault) => put_journal(out, *fault),
            Status::Full {
                used,
                need,
                records,
            } => put_full(out, *used, *need, *records),
            Status::BadScript { line } => put_place(out, b"script: line ", *line),
            Status::DoorFault {
                door: Side::Lines,
                ..
            } => put(out, b"door fault on lines\n"),
            Status::DoorFault {
                door: Side::Desks,
                ..
            } => put(out, b"door fault on desks\n"),
            Status::Memory => put(out, b"out of memory\n"),
            Status::Spent => put(out, b"input too long\n"),
            Status::Worn { .. } => put(out, b"count spent\n"),
            Status::Behind { have, count } => put_behind(out, *have, *count),
            Status::Strange { after } => put_place(out, b"strange message after ", *after),
        }
    }
}

// The line that tells what is wrong with the setup.
fn put_setup<K: Sink>(out: &mut K, fault: SetupFault) -> Result<(), Failed>
    ensures all { OnOk result ((K.seen out.new).written ≡ append_known (K.seen out.old).written (setup_text fault)) }
    ensures cause { HasCause (K.seen out.old).write_faults (K.seen out.new).write_faults result }
{
    match fault {
        SetupFault::TooLarge => put(out, b"setup: too large\n"),
        SetupFault::BadLine { line, kind } => put_bad_line(out, line, kind),
        SetupFault::TwoSame { line, first } => put_number_at_line(
            out,
            line,
            b": same as line ",
            first,
        ),
        SetupFault::TooMany { line, limit } => put_number_at_line(
            out,
            line,
            b": more than ",
            limit,
        ),
        SetupFault::Memory => put(out, b"out of memory\n"),
    }
}

// The text of a line that is none of a setup.
fn put_bad_line<K: Sink>(out: &mut K, line: u64, kind: LineKind) -> Result<(), Failed>
    ensures all { OnOk result ((K.seen out.new).written ≡ append_known (K.seen out.old).written (at_line line (kind_text kind))) }
    ensures cause { HasCause (K.seen out.old).write_faults (K.seen out.new).write_faults result }
{
    match kind {
        LineKind::Form => put_at_line(out, line, b": not a setup line\n"),
        LineKind::BadZone => put_at_line(out, line, b": no such zone rule\n"),
        LineKind::NoAccount => put_at_line(out, line, b": no such account\n"),
    }
}

// What is wrong with a line of the setup.
#[tactic(auto, using(arc_io::proofs::KnownMore::known_both))]
fn put_at_line<K: Sink>(out: &mut K, line: u64, text: &[u8]) -> Result<(), Failed>
    ensures all { OnOk result ((K.seen out.new).written ≡ append_known (K.seen out.old).written (at_line line text.now)) }
    ensures cause { HasCause (K.seen out.old).write_faults (K.seen out.new).write_faults result }
{
    put(out, b"setup: line ")?;
    put_counted(out, line, text)
}

// The same, where that ends with a number.
#[tactic(auto, using(arc_io::proofs::KnownMore::known_both))]
fn put_number_at_line<K: Sink>(
    out: &mut K,
    line: u64,
    text: &[u8],
    number: u64,
) -> Result<(), Failed>
    ensures all { OnOk result ((K.seen out.new).written ≡ append_known (K.seen out.old).written (at_line line (at_place text.now number))) }
    ensures cause { HasCause (K.seen out.old).write_faults (K.seen out.new).write_faults result }
{
    put(out, b"setup: line ")?;
    put_number(out, line)?;
    put_place(out, text, number)
}

// The line that tells what a centre that is followed has no more records of.
#[tactic(auto, using(arc_io::proofs::KnownMore::known_both))]
fn put_behind<K: Sink>(out: &mut K, have: u64, count: u64) -> Result<(), Failed>
    ensures all { OnOk result ((K.seen out.new).written ≡ append_known (K.seen out.old).written (behind_text have count)) }
    ensures cause { HasCause (K.seen out.old).write_faults (K.seen out.new).write_faults result }
{
    put(out, b"mirror behind: ")?;
    put_number(out, have)?;
    put_place(out, b" of ", count)
}

// The line that tells what is wrong with the journal's area.
fn put_journal<K: Sink>(out: &mut K, fault: OpenFault) -> Result<(), Failed>
    ensures all { OnOk result ((K.seen out.new).written ≡ append_known (K.seen out.old).written (journal_text fault)) }
    ensures cause { HasCause (K.seen out.old).write_faults (K.seen out.new).write_faults result }
{
    match fault {
        OpenFault::NotJournal { byte } => put_place(out, b"journal: not a journal at byte ", byte),
        OpenFault::WrongVersion { .. } => put(out, b"journal: wrong version\n"),
        OpenFault::Damaged { at } => put_place(out, b"journal: damaged at ", at),
        OpenFault::TooWide { .. } => put(out, b"journal: too wide\n"),
        OpenFault::DiskFault { .. } => put(out, b"disk fault\n"),
        OpenFault::Memory => put(out, b"out of memory\n"),
    }
}

// A text that ends with the number of a place.
#[tactic(auto, using(arc_io::proofs::KnownMore::known_both))]
fn put_place<K: Sink>(out: &mut K, text: &[u8], place: u64) -> Result<(), Failed>
    ensures all { OnOk result ((K.seen out.new).written ≡ append_known (K.seen out.old).written (at_place text.now place)) }
    ensures cause { HasCause (K.seen out.old).write_faults (K.seen out.new).write_faults result }
{
    put(out, text)?;
    put_counted(out, place, b"\n")
}

// The line that tells of a journal without room.
#[tactic(auto, using(arc_io::proofs::KnownMore::known_both))]
fn put_full<K: Sink>(out: &mut K, used: u64, need: u64, records: u64) -> Result<(), Failed>
    ensures all { OnOk result ((K.seen out.new).written ≡ append_known (K.seen out.old).written (full_text used need records)) }
    ensures cause { HasCause (K.seen out.old).write_faults (K.seen out.new).write_faults result }
{
    put(out, b"journal full: ")?;
    put_counted(out, used, b" used, ")?;
    put_counted(out, need, b" needed, ")?;
    put_counted(out, records, b" records\n")
}

// A number and what is counted.
#[tactic(auto, using(arc_io::proofs::KnownMore::known_both))]
fn put_counted<K: Sink>(out: &mut K, number: u64, what: &[u8]) -> Result<(), Failed>
    ensures all { OnOk result ((K.seen out.new).written ≡ append_known (K.seen out.old).written (counted number what.now)) }
    ensures cause { HasCause (K.seen out.old).write_faults (K.seen out.new).write_faults result }
{
    put_number(out, number)?;
    put(out, what)
}

// A number in decimal.
fn put_number<K: Sink>(out: &mut K, number: u64) -> Result<(), Failed>
    ensures all { OnOk result ((K.seen out.new).written ≡ append_known (K.seen out.old).written (decimal number)) }
    ensures cause { HasCause (K.seen out.old).write_faults (K.seen out.new).write_faults result }
{
    let mut buffer = Buffer::new();
    put(out, buffer.format(number).as_bytes())
}
