//! A screen at which an operator works a desk: it connects to the desk's port, reads keys from its standard input, and draws on its
//! standard output. `station/arc-screen` sets the terminal's mode for it.
#![tactic(auto)]

mod desk;
mod terminal;
mod words;

use desk::Desk;
use std::env::Env;
use std::process::ExitCode;
use std::time::Instant;
use std::{env, io};
use words::{Words, words_of};

const USAGE: &str = "usage: arc_screen [HOST PORT [SITES [COLUMNS ROWS]]]
A screen of the operator's desk at this port, 127.0.0.1 9010 where none is named. SITES is a file of sites and keyholders.
station/arc-screen starts it with the terminal's mode set; the page arc-screen(1) has its keys.";

// How many seconds are made up for at once, where the program stood still: the rest follows behind the next keys.
const MINUTE: u64 = 60;

// The arguments.
fn arguments<R: Env + AllocGlobal>(rt: &R) -> io::Result<Vec<String>> {
    let mut words = Vec::new(rt.alloc());
    for argument in env::args(rt)?.skip(1) {
        words.push(argument)?;
    }
    Ok(words)
}

fn main(rt: HostRuntime) -> ExitCode {
    let Ok(given) = arguments(&rt) else {
        return ExitCode::from(2);
    };
    let Some(words) = words_of(&given) else {
        let _ = rt.println(USAGE);
        return ExitCode::from(1);
    };
    match run(&rt, &words) {
        Ok(()) => ExitCode::from(0),
        Err(_) => ExitCode::from(2),
    }
}

// Works the desk until the operator leaves, or the keyboard ends.
fn run(rt: &HostRuntime, words: &Words) -> io::Result<()> {
    let mut desk = Desk::new(rt, words)?;
    let begun = Instant::now(rt)?;
    let mut seconds = 0;
    for _ in 0..u64::MAX {
        desk.connect(rt);
        if !desk.take_keys(rt)? {
            return Ok(());
        }
        desk.take_answers(rt);
        let passed = begun
            .elapsed(rt)?
            .as_secs()
            .saturating_sub(seconds)
            .min(MINUTE);
        if passed > 0 {
            seconds = seconds.saturating_add(passed);
            desk.pass(rt, passed);
            desk.take_answers(rt);
        }
        desk.draw(rt)?;
    }
    Ok(())
}
