// Which status is made of how a run ended.
ghost use Rattle.std.specs.Prelude.{◌≡◌, ◌≢◌, ◌↔◌, IsTrue};
ghost use Rattle.arc_io.specs.Causes.{Rose};
ghost use Rattle.arc_io.specs.Seen.{PortSeen};
ghost use Rattle.arc_server.specs.Made.{status_over, status_of_fault, status_of_stop, status_of_text, status_of_session, status_of_feed, status_of_follow, status_of_mail};
ghost use Rattle.arc_server.specs.declared.status.Status.TheVariants.{ReadFault, WriteFault};
ghost use Rattle.arc_server.specs.declared.status.Which.TheVariants.{Input};

use crate::status::{Status, Which};
use arc_doors::Mailbox;
use arc_io::{Disk, Failed, Port};
use arc_serving::SessionEnd;
use centre_core::Stop;
use disk_journal::{OpenFault, OpenRefused};
use mirror_centre::{FeedEnd, FollowEnd};
use udp_line::MailEnd;

/// Where the disk has failed, by the counts of its faults at the run's entry and now, that is the status; else it is this one.
pub(crate) fn status_over(before: u64, now: u64, status: Status) -> Status
    requires usage { status ≢ Status.Usage }
    ensures usage { result ≢ Status.Usage }
    ensures over { result ≡ status_over before now status }
{
    if has_risen(before, now) {
        return Status::DiskFault { before, now };
    }
    status
}

// The later count is above the earlier one, or stands at its last value.
fn has_risen(before: u64, now: u64) -> bool
    ensures { IsTrue result ↔ Rose before now }
{
    now > before || now == u64::MAX
}

/// A run that stopped, and its disk.
#[derive(Drop)]
pub(crate) struct StoppedRun<D> {
    pub(crate) status: Status,
    pub(crate) disk: D,
}

/// A run whose journal was not opened, over a disk that had so many faults at the run's entry.
pub(crate) fn unopened<D: Disk>(before: u64, refused: OpenRefused<D>) -> StoppedRun<D>
    ensures usage { result.status ≢ Status.Usage }
    ensures disk { result.disk ≡ refused.disk }
    ensures over { result.status ≡ status_over before (D.seen refused.disk).faults (status_of_fault refused.fault) }
{
    let now = refused.disk.faults();
    StoppedRun {
        status: status_over(before, now, status_of_fault(refused.fault)),
        disk: refused.disk,
    }
}

/// The status that a refused opening makes.
pub(crate) fn status_of_fault(fault: OpenFault) -> Status
    ensures usage { result ≢ Status.Usage }
    ensures made { result ≡ status_of_fault fault }
{
    match fault {
        OpenFault::DiskFault { before, now } => Status::DiskFault { before, now },
        OpenFault::Memory => Status::Memory,
        _ => Status::Journal(fault),
    }
}

/// The status that a stop makes.
pub(crate) fn status_of_stop(stop: Stop) -> Status
    ensures usage { result ≢ Status.Usage }
    ensures made { result ≡ status_of_stop stop }
{
    match stop {
        Stop::Memory => Status::Memory,
        Stop::Down { at_open, now } => Status::DiskFault {
            before: at_open,
            now,
        },
        Stop::Full {
            used,
            need,
            records,
        } => Status::Full {
            used,
            need,
            records,
        },
        Stop::Worn { count } => Status::Worn { count },
    }
}

/// The status of a port whose source failed, which told this count of read faults before.
pub(crate) fn read_fault<P: Port>(before: u64, port: &P) -> Status
    ensures usage { result ≢ Status.Usage }
    ensures made { result ≡ ReadFault Input before (P.seen port.now).read_faults }
{
    Status::ReadFault {
        input: Which::Input,
        before,
        now: port.read_faults(),
    }
}

/// The status of a port whose sink failed, which told this count of write faults before.
pub(crate) fn write_fault<P: Port>(before: u64, port: &P) -> Status
    ensures usage { result ≢ Status.Usage }
    ensures made { result ≡ WriteFault before (P.seen port.now).write_faults }
{
    Status::WriteFault {
        before,
        now: port.write_faults(),
    }
}

/// The status of a text that was written whole, or was cut off.
pub(crate) fn status_of_text<P: Port>(written: Result<(), Failed>, before: u64, port: &P) -> Status
    ensures usage { result ≢ Status.Usage }
    ensures made { (p : PortSeen) → before ≡ p.write_faults → result ≡ status_of_text written p (P.seen port.now) }
{
    match written {
        Ok(()) => Status::Done,
        Err(Failed) => write_fault(before, port),
    }
}

/// The status that a session's end makes, over a port that told these counts of faults before.
pub(crate) fn status_of_session<P: Port>(
    end: SessionEnd,
    reads: u64,
    writes: u64,
    port: &P,
) -> Status
    ensures usage { result ≢ Status.Usage }
    ensures made { (p : PortSeen) → reads ≡ p.read_faults → writes ≡ p.write_faults → result ≡ status_of_session end p (P.seen port.now) }
{
    match end {
        SessionEnd::Quit | SessionEnd::InputEnded => Status::Done,
        SessionEnd::ReadFault => read_fault(reads, port),
        SessionEnd::WriteFault => write_fault(writes, port),
        SessionEnd::Spent => Status::Spent,
        SessionEnd::Stopped(stop) => status_of_stop(stop),
    }
}

/// The status that the end of answering asks makes, over a port that told these counts of faults before.
pub(crate) fn status_of_feed<P: Port>(end: FeedEnd, reads: u64, writes: u64, port: &P) -> Status
    ensures usage { result ≢ Status.Usage }
    ensures made { (p : PortSeen) → reads ≡ p.read_faults → writes ≡ p.write_faults → result ≡ status_of_feed end p (P.seen port.now) }
{
    match end {
        FeedEnd::Done => Status::Done,
        FeedEnd::ReadFault => read_fault(reads, port),
        FeedEnd::WriteFault => write_fault(writes, port),
        FeedEnd::Spent => Status::Spent,
        FeedEnd::Strange { after } => Status::Strange { after },
        FeedEnd::Stopped(stop) => status_of_stop(stop),
    }
}

/// The status that the end of following another centre makes, over a port that told these counts of faults before.
pub(crate) fn status_of_follow<P: Port>(end: FollowEnd, reads: u64, writes: u64, port: &P) -> Status
    ensures usage { result ≢ Status.Usage }
    ensures made { (p : PortSeen) → reads ≡ p.read_faults → writes ≡ p.write_faults → result ≡ status_of_follow end p (P.seen port.now) }
{
    match end {
        FollowEnd::Done => Status::Done,
        FollowEnd::Behind { have, count } => Status::Behind { have, count },
        FollowEnd::Strange { after } => Status::Strange { after },
        FollowEnd::ReadFault => read_fault(reads, port),
        FollowEnd::WriteFault => write_fault(writes, port),
        FollowEnd::Spent => Status::Spent,
        FollowEnd::Stopped(stop) => status_of_stop(stop),
    }
}

/// The status that the end of so many datagrams makes, over a mailbox that told these counts of faults before.
pub(crate) fn status_of_mail<M: Mailbox>(
    end: MailEnd,
    receives: u64,
    replies: u64,
    mail: &M,
) -> Status
    ensures usage { result ≢ Status.Usage }
    ensures made { (m : PortSeen) → receives ≡ m.read_faults → replies ≡ m.write_faults → result ≡ status_of_mail end m (M.seen mail.now) }
{
    match end {
        MailEnd::Quota | MailEnd::Ended => Status::Done,
        MailEnd::ReadFault => Status::ReadFault {
            input: Which::Mail,
            before: receives,
            now: mail.receive_faults(),
        },
        MailEnd::WriteFault => Status::WriteFault {
            before: replies,
            now: mail.reply_faults(),
        },
        MailEnd::Stopped(stop) => status_of_stop(stop),
    }
}
