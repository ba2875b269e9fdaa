//! The alarm receiving centre. `arc line` and `arc desk` read the setup from `setup.txt` in the working folder and serve one line,
//! or one operator's desk, on their standard input and output. What they record stands in `journal.a`, beside `journal.b`, and
//! `arc report` writes what stands there. `arc serve` serves many lines and desks at once, each on a connection; `arc gather` does so too,
//! and records the messages together that come together on a line. `arc script` runs a script from standard input over the same journal,
//! and `arc drill` one of its own over a journal in memory. `arc panel` is a panel that a receiver can be tried with. `arc udp` serves
//! datagrams of panels. `arc mirror` follows another centre over standard input and output, where `arc feed` answers it.
#![tactic(auto)]

ghost use Rattle.std.specs.Prelude.{◌≡◌, Some, false};
ghost use Rattle.arc_server.specs.Forms.{form_of as form_by};
ghost use Rattle.arc_server.specs.WholeRuns.{HasDoors};

use arc_data::Txt;
use arc_doors::{Peers, SecondPulse, TcpDoor, UdpMail};
use arc_io::{Disk, FileDisk, FileSource, Port, RealClock, RealNoise, Source, StdPort};
use form::{Form, form_of};
use run::{Outside, run};
use status::Status;
use std::env::Env;
use std::io::Write;
use std::process::ExitCode;
use std::sync::Wait;
use std::thread::Threads;
use std::{env, fs, io};
use threads::can_make;

mod begin;
mod came;
mod drill;
mod feed;
mod form;
mod laws;
mod made;
mod mail;
mod mirror;
mod panel;
mod report;
mod run;
mod script;
mod serving;
mod session;
mod setup;
mod status;
mod summary;
mod threads;

// The arguments as short texts. One that is longer than 32 bytes stands as `?`, which no form has.
fn words<R: Env + AllocGlobal>(rt: &R) -> io::Result<Vec<Txt>> {
    let mut words = Vec::new(rt.alloc());
    for argument in env::args(rt)?.skip(1) {
        let word = match Txt::of(argument.as_bytes()) {
            Some(word) => word,
            None => Txt::question(),
        };
        words.push(word)?;
    }
    Ok(words)
}

fn main(rt: HostRuntime) -> ExitCode {
    // The number of a standard stream that is closed would go to the next file that is opened, and that file would then be
    // read or written as the stream. Until the end a folder stands there, which can be neither read nor written.
    let _input = fs::open(&rt, ".");
    let _output = fs::open(&rt, ".");
    let _errors = fs::open(&rt, ".");
    let status = match words(&rt) {
        Ok(words) => run_over_machine(&rt, &rt, &words),
        Err(_) => Status::Memory,
    };
    let mut errors = StdPort::new(
        io::empty(),
        rt.stderr(),
        RealClock::new(&rt),
        RealNoise::new(&rt),
    );
    let _ = status.text(&mut errors);
    ExitCode::from(status.number())
}

// How many doors of lines, and how many of desks, are made for these words: enough for the greatest numbers. Only `serve` and `gather` have
// doors.
fn doors_for(words: &[Txt]) -> (usize, usize)
    ensures { (form : Form) → form_by words.now ≡ Some form → HasDoors form result.0 result.1 }
{
    match form_of(words) {
        Some(Form::Serve(_) | Form::Gather(_)) => (64, 16),
        _ => (0, 0),
    }
}

// How many threads beside the first one these words want. The first one serves a line, and the clock has one of its own; where there are no
// desks, one is begun for them all the same.
fn threads_for(words: &[Txt]) -> usize {
    match form_of(words) {
        Some(Form::Serve(crew) | Form::Gather(crew)) => crew
            .lines
            .saturating_add(crew.desks.max(1)),
        _ => 0,
    }
}

// Runs over the real setup file, the real standard streams, and the journal in the working folder.
fn run_over_machine<W: Threads + Wait + Sync>(
    threads: &W,
    rt: &HostRuntime,
    words: &[Txt],
) -> Status {
    // A worker without a thread would wait until others have served all their sessions.
    let wanted = threads_for(words);
    if !can_make(threads, *rt, rt.alloc(), wanted) {
        let _ = eprintln!(rt; "the system refuses one of {wanted} threads");
        return Status::Memory;
    }
    let Ok(disk) = FileDisk::new(rt, rt.alloc(), ".") else {
        return Status::Memory;
    };
    let port = StdPort::new(
        rt.reader(),
        io::writer(rt),
        RealClock::new(rt),
        RealNoise::new(rt),
    );
    run_at_doors(
        threads,
        rt,
        words,
        FileSource::new(rt, "setup.txt"),
        port,
        disk,
    )
}

// Makes the doors for these words, and runs.
fn run_at_doors<W: Threads + Wait + Sync, S: Source + Drop, P: Port + Drop, D: Disk + Send + Drop>(
    threads: &W,
    rt: &HostRuntime,
    words: &[Txt],
    setup: S,
    port: P,
    disk: D,
) -> Status
    requires setup { (S.seen setup).ended ≡ false }
    requires port { (P.seen port).ended ≡ false }
{
    let (lines, desks) = doors_for(words);
    let (Ok(lines), Ok(desks)) = (
        TcpDoor::shared(*rt, rt.alloc(), Peers::Panels, 9009, lines),
        TcpDoor::shared(*rt, rt.alloc(), Peers::Operators, 9010, desks),
    ) else {
        return Status::Memory;
    };
    let outside = Outside {
        setup,
        port,
        disk,
        lines,
        desks,
        pulse: SecondPulse::new(*rt),
        mail: UdpMail::new(*rt, 9009),
    };
    run(threads, rt.alloc(), words, outside).status
}
