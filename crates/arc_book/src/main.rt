//! The station's book. `arc-book` reads the bytes of a journal's area on its standard input, and writes a line for a summary that it begins
//! with and for each of its records, or for those that its words ask for. It opens no file, so it takes a copy of a journal, or one that is
//! in use, and can't harm it.
#![tactic(auto)]

use arc_io::{RealClock, RealNoise, StdPort};
use book::book;
use book_lines::{Options, Word};
use status::Status;
use std::process::ExitCode;
use std::{env, fs, io};

mod book;
mod compile;
mod intake;
mod status;
mod tape;

// The words behind the program's name. One that is longer than 64 bytes stands as `?`, which nothing is asked for by.
fn words<R: env::Env + AllocGlobal>(rt: &R) -> io::Result<Vec<Word>> {
    let mut words = Vec::new(rt.alloc());
    for argument in env::args(rt)?.skip(1) {
        let word = match Word::of(argument.as_bytes()) {
            Some(word) => word,
            None => Word::question(),
        };
        words.push(word)?;
    }
    Ok(words)
}

// Writes the book of the standard input on the standard output, as the words ask for it.
fn run(rt: &HostRuntime) -> Status {
    let Ok(words) = words(rt) else {
        return Status::Memory;
    };
    let Some(options) = Options::read(&words) else {
        return Status::Usage;
    };
    let mut input = StdPort::new(
        rt.reader(),
        io::sink(),
        RealClock::new(rt),
        RealNoise::new(rt),
    );
    let mut output = StdPort::new(
        io::empty(),
        io::writer(rt),
        RealClock::new(rt),
        RealNoise::new(rt),
    );
    book(rt.alloc(), &options, &mut input, &mut output)
}

fn main(rt: HostRuntime) -> ExitCode {
    // The number of a standard stream that is closed would go to the next file that is opened.
    let _input = fs::open(&rt, ".");
    let _output = fs::open(&rt, ".");
    let _errors = fs::open(&rt, ".");
    let status = run(&rt);
    let mut errors = StdPort::new(
        io::empty(),
        rt.stderr(),
        RealClock::new(&rt),
        RealNoise::new(&rt),
    );
    let _ = status.text(&mut errors);
    ExitCode::from(status.number())
}
