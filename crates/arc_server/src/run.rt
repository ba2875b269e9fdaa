// The top call.
ghost use Rattle.std.specs.Prelude.{◌≡◌, ◌≢◌, ◌↔◌, Some, None, false, length, map};
ghost use Rattle.arc_server.specs.Forms.{form_of as form_by};
ghost use Rattle.arc_server.specs.WholeRuns.{IsRun, HasDoors, IsInRange, reads_setup};

use crate::drill::run_drill;
use crate::feed::run_feed;
use crate::form::{Form, form_of};
use crate::mail::run_mailed;
use crate::mirror::run_mirror;
use crate::panel::run_panelled;
use crate::report::run_report;
use crate::script::run_scripted;
use crate::serving::{Served, run_gather, run_serve};
use crate::session::run_session;
use crate::status::Status;
use arc_data::Txt;
use arc_doors::{Door, Mailbox, Pulse};
use arc_io::{Disk, Port, Source};
use arc_serving::Station;
use std::alloc::Global;
use std::sync::Wait;
use std::thread::Threads;

/// What a run is handed: the source of the setup text, the port of one line or desk, the disk of the journal; for `serve` and `gather` the
/// doors of lines and of desks, and the pulse that gives the moments at which to tick; and for `udp` the mailbox.
#[derive(Drop)]
pub struct Outside<S, P, D, A, B, T, M> {
    pub setup: S,
    pub port: P,
    pub disk: D,
    pub lines: Vec<A>,
    pub desks: Vec<B>,
    pub pulse: T,
    pub mail: M,
}

/// What a run hands back: its status, and all that it was handed.
#[derive(Drop)]
pub struct Ended<S, P, D, A, B, T, M> {
    pub status: Status,
    pub outside: Outside<S, P, D, A, B, T, M>,
}

/// Does what the words say. Of `line` and `desk` the setup is read, the journal is opened with the
/// limits that are shipped, a run begins at one reading of the clock, and one session is served on the port, of a line or of a desk.
/// What it records stands in the journal before it is answered. Of `serve` a run begins in the same way, and then the first doors of each
/// side have a worker each, all beside each other, and a ticker; when all have ended, a summary is written on the port. `gather` does as
/// `serve`, and records what comes together on a line together; where the disk failed, it writes no summary. Of `report` the setup is not
/// read: the journal is opened, and what it has is reported on the port. Of `script` the setup is read, and the script on the port is run
/// over the journal: it sets the clock. Of `drill N` nothing but the port is touched: a script of so many messages is run over a disk in
/// memory, and one line of what was counted is written. Of `panel ACCOUNT` nothing but the port is touched, too: its lines say what happens
/// to a panel of this account, and what it does is written. Of `feed` and `mirror` the setup is not read, and no run begins: the journal is
/// opened, and the asks on the port of a centre that follows this one are answered by what it has; or the port is asked for what comes next
/// in the journal, one record after another, and each is recorded there. Of `udp N` a run begins as of `line`, and so many datagrams of the
/// mailbox are served, each a line by itself.
pub fn run<
    R: Threads + Wait + Sync,
    S: Source,
    P: Port,
    D: Disk + Send + Drop,
    A: Door + Send + Drop,
    B: Door + Send + Drop,
    T: Pulse + Send + Drop,
    M: Mailbox,
>(
    rt: &R,
    alloc: Global,
    words: &[Txt],
    outside: Outside<S, P, D, A, B, T, M>,
) -> Ended<S, P, D, A, B, T, M>
    requires setup { (S.seen outside.setup).ended ≡ false }
    requires port { (P.seen outside.port).ended ≡ false }
    requires doors { (form : Form) → form_by words.now ≡ Some form → HasDoors form (length outside.lines.items) (length outside.desks.items) }
    ensures usage { (result.status ≡ Status.Usage) ↔ (form_by words.now ≡ None) }
    ensures untouched { result.status ≡ Status.Usage → result.outside ≡ outside }
    ensures unread { (form : Form) → form_by words.now ≡ Some form → reads_setup form ≡ false → result.outside.setup ≡ outside.setup }
    ensures ran { (form : Form) → form_by words.now ≡ Some form →
        IsRun D.seen form result.status
        (record { setup = S.seen outside.setup; port = P.seen outside.port; disk = outside.disk })
        (record { setup = S.seen result.outside.setup; port = P.seen result.outside.port; disk = result.outside.disk })
        (record {
          station = record {
            lines = map (λ d. A.seen d) outside.lines.items;
            desks = map (λ d. B.seen d) outside.desks.items;
            pulse = T.moments outside.pulse;
          };
          mail = M.seen outside.mail;
        })
        (record {
          station = record {
            lines = map (λ d. A.seen d) result.outside.lines.items;
            desks = map (λ d. B.seen d) result.outside.desks.items;
            pulse = T.moments result.outside.pulse;
          };
          mail = M.seen result.outside.mail;
        }) }
{
    let Some(form) = form_of(words) else {
        return Ended {
            status: Status::Usage,
            outside,
        };
    };
    let Outside {
        mut setup,
        mut port,
        disk,
        lines,
        desks,
        pulse,
        mut mail,
    } = outside;
    let station = Station {
        lines,
        desks,
        pulse,
    };
    let served = run_form(
        rt, form, alloc, &mut setup, &mut port, disk, station, &mut mail,
    );
    let Served {
        status,
        disk,
        station,
    } = served;
    let Station {
        lines,
        desks,
        pulse,
    } = station;
    Ended {
        status,
        outside: Outside {
            setup,
            port,
            disk,
            lines,
            desks,
            pulse,
            mail,
        },
    }
}

// Does what is asked for.
fn run_form<
    R: Threads + Wait + Sync,
    S: Source,
    P: Port,
    D: Disk + Send + Drop,
    A: Door + Send + Drop,
    B: Door + Send + Drop,
    T: Pulse + Send + Drop,
    M: Mailbox,
>(
    rt: &R,
    form: Form,
    alloc: Global,
    setup: &mut S,
    port: &mut P,
    disk: D,
    station: Station<A, B, T>,
    mail: &mut M,
) -> Served<D, A, B, T>
    requires setup { (S.seen setup.old).ended ≡ false }
    requires port { (P.seen port.old).ended ≡ false }
    requires doors { HasDoors form (length station.lines) (length station.desks) }
    requires range { IsInRange form }
    ensures usage { result.status ≢ Status.Usage }
    ensures unread { reads_setup form ≡ false → setup.new ≡ setup.old }
    ensures ran { IsRun D.seen form result.status
        (record { setup = S.seen setup.old; port = P.seen port.old; disk = disk })
        (record { setup = S.seen setup.new; port = P.seen port.new; disk = result.disk })
        (record { station = station; mail = M.seen mail.old }) (record { station = result.station; mail = M.seen mail.new }) }
{
    match form {
        Form::Serve(crew) => run_serve(rt, alloc, crew, setup, port, disk, station),
        Form::Gather(crew) => run_gather(rt, alloc, crew, setup, port, disk, station),
        Form::Session(side) => unserved(run_session(side, alloc, setup, port, disk), station),
        Form::Script => unserved(run_scripted(alloc, setup, port, disk), station),
        Form::Report => unserved(run_report(alloc, port, disk), station),
        Form::Drill(messages) => unserved((run_drill(alloc, messages, port), disk), station),
        Form::Panel(account) => unserved((run_panelled(alloc, account, port), disk), station),
        Form::Feed => unserved(run_feed(alloc, port, disk), station),
        Form::Mirror => unserved(run_mirror(alloc, port, disk), station),
        Form::Udp(datagrams) => unserved(
            run_mailed(alloc, datagrams, setup, port, disk, mail),
            station,
        ),
    }
}

// Of a run that used nothing of what stands around the store.
fn unserved<D: Disk + Drop, A: Door + Drop, B: Door + Drop, T: Pulse + Drop>(
    ended: (Status, D),
    station: Station<A, B, T>,
) -> Served<D, A, B, T>
    ensures status { result.status ≡ ended.0 }
    ensures disk { result.disk ≡ ended.1 }
    ensures station { result.station ≡ station }
{
    let (status, disk) = ended;
    Served {
        status,
        disk,
        station,
    }
}
