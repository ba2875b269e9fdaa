// A run that serves datagrams.
ghost use Rattle.std.specs.Prelude.{◌≡◌, ◌≢◌, false};
ghost use Rattle.arc_io.specs.Seen.{PortSeen};
ghost use Rattle.centre_core.specs.Setting.{IsSetting};
ghost use Rattle.arc_server.specs.Areas.{shipped};
ghost use Rattle.arc_server.specs.Beginnings.{HasBegun, StopsBefore};
ghost use Rattle.arc_server.specs.Handed.{Handed, Either};
ghost use Rattle.arc_server.specs.MailRuns.{AnswersMail};

use crate::begin::begin_run;
use crate::made::{StoppedRun, status_of_mail, status_over};
use crate::status::Status;
use arc_doors::Mailbox;
use arc_io::{Disk, Port, Source};
use centre_store::Store;
use std::alloc::Global;
use udp_line::serve_mail;

/// Begins a run, at one reading of the port's clock, and serves so many datagrams of the mailbox.
pub(crate) fn run_mailed<S: Source, P: Port, D: Disk, M: Mailbox>(
    alloc: Global,
    datagrams: u32,
    source: &mut S,
    port: &mut P,
    disk: D,
    mail: &mut M,
) -> (Status, D)
    requires setup { (S.seen source.old).ended ≡ false }
    ensures usage { result.0 ≢ Status.Usage }
    ensures ran { Either (λ r r'. StopsBefore D.seen result.0 r r' × (M.seen mail.new ≡ M.seen mail.old))
        (λ r r'. AnswersMail D.seen datagrams result.0 r r' (M.seen mail.old) (M.seen mail.new))
        (record { setup = S.seen source.old; port = P.seen port.old; disk = disk })
        (record { setup = S.seen source.new; port = P.seen port.new; disk = result.1 }) }
{
    let before = disk.faults();
    match begin_run(alloc, source, port, disk) {
        Ok(store) => answer_mail(alloc, datagrams, before, store, mail),
        Err(StoppedRun { status, disk }) => (status, disk),
    }
}

// Serves the datagrams of a run that has begun, and lets the store go.
fn answer_mail<D: Disk, M: Mailbox>(
    alloc: Global,
    datagrams: u32,
    before: u64,
    store: Store<D>,
    mail: &mut M,
) -> (Status, D)
    requires ready { IsSetting store.state.sum.text }
    requires limits { store.journal.limits ≡ shipped }
    ensures usage { result.0 ≢ Status.Usage }
    ensures served { (r : Handed D) (q' p' : PortSeen) → before ≡ (D.seen r.disk).faults
        → (begun : HasBegun D.seen r q' p') → begun.first ≡ store
        → AnswersMail D.seen datagrams result.0 r (record { setup = q'; port = p'; disk = result.1 }) (M.seen mail.old) (M.seen mail.new) }
{
    let receives = mail.receive_faults();
    let replies = mail.reply_faults();
    let mut store = store;
    let end = serve_mail(alloc, &mut store, mail, datagrams);
    let disk = store.close();
    let status = status_of_mail(end, receives, replies, mail);
    (status_over(before, disk.faults(), status), disk)
}
