// The lines of a script, one after another.
ghost use Rattle.std.specs.Prelude.{◌≡◌, ◌≢◌, ◌≤◌, ◌+◌, ◌++◌, ◌∷◌, [], ℕ, List, IfErr, IfOk, IfSome, OnOk, Some, length};
ghost use Rattle.arc_data.specs.Moments.{IsMoment};
ghost use Rattle.arc_io.specs.Told.{OnlyWrites};
ghost use Rattle.arc_text.specs.LineCutting.{WasFed, cut_of, line_of};
ghost use Rattle.arc_text.specs.Lines.{ended_lines};
ghost use Rattle.script_lines.specs.Lines.{Asks, IsAsked, Reopen, spelling};
ghost use Rattle.script_lines.specs.Reading.{asked};
ghost use Rattle.session_rules.specs.Inputs.{input_limit};
ghost use Rattle.arc_script.specs.Begun.{Begun};
ghost use Rattle.arc_script.specs.Between.{IsReady, MayComeNext, SoFar};
ghost use Rattle.arc_script.specs.Halting.{Halts, closing};
ghost use Rattle.arc_script.specs.Leaving.{EndsHere, Leaves, MayBeLeft};
ghost use Rattle.arc_script.specs.Playing.{IsAskedAt, moment_at};
ghost use Rattle.arc_script.specs.Texts.{is_passed, line_limit};

use crate::page::Page;
use crate::room::Room;
use crate::script::Script;
use crate::script_end::ScriptEnd;
use crate::step::{carry_out, carry_out_reopen};
use arc_io::{Disk, Failed, Port, put};
use arc_text::{LineCut, LineCutter};
use centre_core::Stop;
use centre_store::Store;
use disk_journal::OpenRefused;
use script_lines::{ScriptLine, is_skipped};
use std::alloc::Global;

/// A script that one of its lines ended, and its disk.
#[derive(Drop)]
pub(crate) struct Halted<D> {
    pub(crate) end: ScriptEnd,
    pub(crate) disk: D,
}

/// Plays each line that ends in these bytes, behind those that were taken before.
pub(crate) fn play_ended<D: Disk, P: Port>(
    alloc: Global,
    store: Store<D>,
    script: &mut Script,
    cutter: &mut LineCutter,
    room: &mut Room,
    port: &mut P,
    bytes: &[u8],
) -> Result<Store<D>, Halted<D>>
    requires limit { cutter.old.limit ≡ line_limit }
    requires fed { (stream : List ℕ) × WasFed stream cutter.old }
    requires ready { IsReady script.old.clock script.old.setup store.state.sum.text }
    ensures limit { cutter.new.limit ≡ line_limit }
    ensures fed { IfOk result (λ s. (stream : List ℕ) → WasFed stream cutter.old → WasFed (stream ++ bytes.now) cutter.new) }
    ensures played { IfOk result (λ s. (b : Begun D) (stream : List ℕ) → WasFed stream cutter.old
        → length (stream ++ bytes.now) ≤ input_limit
        → SoFar D.seen b (ended_lines stream) script.old store (P.seen port.old) → script.old.number ≡ length (ended_lines stream)
        → SoFar D.seen b (ended_lines (stream ++ bytes.now)) script.new s (P.seen port.new)
        × (script.new.number ≡ length (ended_lines (stream ++ bytes.now)))) }
    ensures halted { IfErr result (λ halted. (b : Begun D) (stream : List ℕ) → WasFed stream cutter.old
        → length (stream ++ bytes.now) ≤ input_limit
        → SoFar D.seen b (ended_lines stream) script.old store (P.seen port.old) → script.old.number ≡ length (ended_lines stream)
        → Halts D.seen b (ended_lines stream) (ended_lines (stream ++ bytes.now)) halted.end (P.seen port.new) halted.disk script.new.tally) }
    ensures ready { IfOk result (λ s. IsReady script.new.clock script.new.setup s.state.sum.text) }
    ensures only { OnlyWrites (P.seen port.old) (P.seen port.new) }
{
    let mut store = store;
    let mut at = 0;
    while at < bytes.len() {
        let (count, cut) = cutter.feed(&bytes[at..]);
        at += count;
        let Some(cut) = cut else {
            continue;
        };
        if let Err(left) = play_line(alloc, &mut store, script, room, port, cut, cutter.line()) {
            store = play_left(alloc, store, script, port, left)?;
        }
    }
    Ok(store)
}

/// Plays the line behind the last line feed, which was cut so.
pub(crate) fn play_last<D: Disk, P: Port>(
    alloc: Global,
    store: Store<D>,
    script: &mut Script,
    room: &mut Room,
    port: &mut P,
    cut: LineCut,
    line: &[u8],
) -> Result<Store<D>, Halted<D>>
    requires short { length line.now ≤ line_limit }
    requires ready { IsReady script.old.clock script.old.setup store.state.sum.text }
    ensures played { IfOk result (λ s. (b : Begun D) (lines : List (List ℕ)) (typed : List ℕ)
        → cut ≡ cut_of line_limit typed → line.now ≡ line_of cut typed → MayComeNext lines typed
        → SoFar D.seen b lines script.old store (P.seen port.old) → script.old.number ≡ length lines
        → SoFar D.seen b (lines ++ typed ∷ []) script.new s (P.seen port.new)) }
    ensures halted { IfErr result (λ halted. (b : Begun D) (lines more : List (List ℕ)) (typed : List ℕ)
        → cut ≡ cut_of line_limit typed → line.now ≡ line_of cut typed → MayComeNext lines typed
        → SoFar D.seen b lines script.old store (P.seen port.old) → script.old.number ≡ length lines
        → Halts D.seen b lines (lines ++ typed ∷ more) halted.end (P.seen port.new) halted.disk script.new.tally) }
    ensures only { OnlyWrites (P.seen port.old) (P.seen port.new) }
{
    let mut store = store;
    match play_line(alloc, &mut store, script, room, port, cut, line) {
        Ok(()) => Ok(store),
        Err(left) => play_left(alloc, store, script, port, left),
    }
}

// What a line leaves to be done with the whole store.
#[derive(Clone, Copy, Debug)]
pub(crate) enum Left {
    // The line ended the script so.
    Ended(ScriptEnd),
    // The line is an `X`, of this moment.
    Reopen(u64),
}

// Plays a line that was cut so. `Err` comes where it ended the script, and of an `X`, for which nothing is done yet.
fn play_line<D: Disk, P: Port>(
    alloc: Global,
    store: &mut Store<D>,
    script: &mut Script,
    room: &mut Room,
    port: &mut P,
    cut: LineCut,
    line: &[u8],
) -> Result<(), Left>
    requires short { length line.now ≤ line_limit }
    requires ready { IsReady script.old.clock script.old.setup store.old.state.sum.text }
    ensures played { OnOk result ((b : Begun D) (lines : List (List ℕ)) (typed : List ℕ)
        → cut ≡ cut_of line_limit typed → line.now ≡ line_of cut typed → MayComeNext lines typed
        → SoFar D.seen b lines script.old store.old (P.seen port.old) → script.old.number ≡ length lines
        → SoFar D.seen b (lines ++ typed ∷ []) script.new store.new (P.seen port.new)) }
    ensures left { IfErr result (λ left. (b : Begun D) (lines : List (List ℕ)) (typed : List ℕ)
        → cut ≡ cut_of line_limit typed → line.now ≡ line_of cut typed → MayComeNext lines typed
        → SoFar D.seen b lines script.old store.old (P.seen port.old) → script.old.number ≡ length lines
        → Leaves D.seen b lines typed script.new store.new (P.seen port.new) left) }
    ensures number { script.old.number ≤ input_limit → script.new.number ≡ script.old.number + 1 }
    ensures ready { OnOk result (IsReady script.new.clock script.new.setup store.new.state.sum.text) }
    ensures may { IfErr result (MayBeLeft script.new.clock script.new.setup store.new.state.sum.text) }
    ensures only { OnlyWrites (P.seen port.old) (P.seen port.new) }
{
    script.number = script.number.saturating_add(1);
    if is_passed(cut, line) {
        return Ok(());
    }
    let Some((asked, moment)) = asked_at(cut, line, script.clock) else {
        let line = script.number;
        return Err(Left::Ended(ScriptEnd::BadScript { line }));
    };
    if asked == ScriptLine::Reopen {
        return Err(Left::Reopen(moment));
    }
    match play_asked(alloc, store, script, room, port, asked, moment) {
        Ok(()) => Ok(()),
        Err(end) => Err(Left::Ended(end)),
    }
}

// Does what a line left to be done: closes the store, or carries out an `X`.
fn play_left<D: Disk, P: Port>(
    alloc: Global,
    store: Store<D>,
    script: &mut Script,
    port: &mut P,
    left: Left,
) -> Result<Store<D>, Halted<D>>
    requires may { MayBeLeft script.old.clock script.old.setup store.state.sum.text left }
    ensures played { IfOk result (λ s. (b : Begun D) (lines : List (List ℕ)) (typed : List ℕ)
        → Leaves D.seen b lines typed script.old store (P.seen port.old) left
        → SoFar D.seen b (lines ++ typed ∷ []) script.new s (P.seen port.new)) }
    ensures halted { IfErr result (λ halted. (b : Begun D) (lines more : List (List ℕ)) (typed : List ℕ)
        → Leaves D.seen b lines typed script.old store (P.seen port.old) left
        → Halts D.seen b lines (lines ++ typed ∷ more) halted.end (P.seen port.new) halted.disk script.new.tally) }
    ensures number { IfOk result (λ s. script.new.number ≡ script.old.number) }
    ensures ready { IfOk result (λ s. IsReady script.new.clock script.new.setup s.state.sum.text) }
    ensures only { OnlyWrites (P.seen port.old) (P.seen port.new) }
{
    match left {
        Left::Ended(end) => Err(halt(store, script, end)),
        Left::Reopen(moment) => play_reopen(alloc, store, script, port, moment),
    }
}

// Whether a line that was cut so is skipped.
fn is_passed(cut: LineCut, line: &[u8]) -> bool
    ensures { (typed : List ℕ) → cut ≡ cut_of line_limit typed → line.now ≡ line_of cut typed → result ≡ is_passed typed }
{
    match cut {
        LineCut::Whole => is_skipped(line),
        LineCut::TooLong => false,
    }
}

// What a line that was cut so asks for, and at which moment. None where it asks for nothing, or comes before the first `T`.
fn asked_at<'a>(cut: LineCut, line: &'a [u8], clock: Option<u64>) -> Option<(ScriptLine<'a>, u64)>
    ensures at { (typed : List ℕ) → cut ≡ cut_of line_limit typed → line.now ≡ line_of cut typed → IsAskedAt typed clock result }
    ensures read { IfSome result (λ read. Asks line.now (asked read.0) × (moment_at clock (asked read.0) ≡ Some read.1)) }
{
    let LineCut::Whole = cut else {
        return None;
    };
    let asked = ScriptLine::read(line)?;
    match asked {
        ScriptLine::Time { moment } => Some((asked, moment)),
        _ => Some((asked, clock?)),
    }
}

// Carries out what a line other than `X` asks for, and writes its output.
fn play_asked<D: Disk, P: Port>(
    alloc: Global,
    store: &mut Store<D>,
    script: &mut Script,
    room: &mut Room,
    port: &mut P,
    wanted: ScriptLine,
    moment: u64,
) -> Result<(), ScriptEnd>
    requires moment { IsMoment moment }
    requires ready { IsReady script.old.clock script.old.setup store.old.state.sum.text }
    requires ranges { IsAsked (asked wanted) }
    requires short { length (spelling (asked wanted)) ≤ line_limit }
    requires at { moment_at script.old.clock (asked wanted) ≡ Some moment }
    requires other { asked wanted ≢ Reopen }
    ensures played { OnOk result ((b : Begun D) (lines : List (List ℕ)) (typed : List ℕ)
        → Asks typed (asked wanted.entry) → MayComeNext lines typed
        → SoFar D.seen b lines script.old store.old (P.seen port.old)
        → SoFar D.seen b (lines ++ typed ∷ []) script.new store.new (P.seen port.new)) }
    ensures ended { IfErr result (λ end. (b : Begun D) (lines : List (List ℕ)) (typed : List ℕ)
        → Asks typed (asked wanted.entry) → MayComeNext lines typed
        → SoFar D.seen b lines script.old store.old (P.seen port.old)
        → EndsHere D.seen b lines typed script.new store.new (P.seen port.new) end) }
    ensures number { script.new.number ≡ script.old.number }
    ensures ready { OnOk result (IsReady script.new.clock script.new.setup store.new.state.sum.text) }
    ensures only { OnlyWrites (P.seen port.old) (P.seen port.new) }
{
    let Ok(mut page) = Page::new(alloc, moment) else {
        return Err(ScriptEnd::Stopped(Stop::Memory));
    };
    if let Err(stop) = carry_out(alloc, store, script, moment, wanted, room, &mut page) {
        return Err(ScriptEnd::Stopped(stop));
    }
    match put(port, page.text()) {
        Ok(()) => Ok(()),
        Err(Failed) => Err(ScriptEnd::WriteFault),
    }
}

// Carries out an `X`, and writes its output.
fn play_reopen<D: Disk, P: Port>(
    alloc: Global,
    store: Store<D>,
    script: &mut Script,
    port: &mut P,
    moment: u64,
) -> Result<Store<D>, Halted<D>>
    requires moment { IsMoment moment }
    requires ready { IsReady script.old.clock script.old.setup store.state.sum.text }
    requires at { script.old.clock ≡ Some moment }
    ensures played { IfOk result (λ s. (b : Begun D) (lines : List (List ℕ)) (typed : List ℕ)
        → Asks typed Reopen → MayComeNext lines typed
        → SoFar D.seen b lines script.old store (P.seen port.old)
        → SoFar D.seen b (lines ++ typed ∷ []) script.new s (P.seen port.new)) }
    ensures halted { IfErr result (λ halted. (b : Begun D) (lines more : List (List ℕ)) (typed : List ℕ)
        → Asks typed Reopen → MayComeNext lines typed
        → SoFar D.seen b lines script.old store (P.seen port.old)
        → Halts D.seen b lines (lines ++ typed ∷ more) halted.end (P.seen port.new) halted.disk script.new.tally) }
    ensures number { script.new.number ≡ script.old.number }
    ensures ready { IfOk result (λ s. IsReady script.new.clock script.new.setup s.state.sum.text) }
    ensures only { OnlyWrites (P.seen port.old) (P.seen port.new) }
{
    let Ok(mut page) = Page::new(alloc, moment) else {
        return Err(halt(store, script, ScriptEnd::Stopped(Stop::Memory)));
    };
    let (store, played) = match carry_out_reopen(alloc, store, script, moment, &mut page) {
        Ok(carried) => carried,
        Err(OpenRefused { fault, disk }) => {
            let end = ScriptEnd::Refused(fault);
            return Err(Halted { end, disk });
        }
    };
    if let Err(stop) = played {
        return Err(halt(store, script, ScriptEnd::Stopped(stop)));
    }
    match put(port, page.text()) {
        Ok(()) => Ok(store),
        Err(Failed) => Err(halt(store, script, ScriptEnd::WriteFault)),
    }
}

// Closes the store of a script that ended so.
fn halt<D: Disk>(store: Store<D>, script: &mut Script, end: ScriptEnd) -> Halted<D>
    ensures end { result.end ≡ end }
    ensures disk { result.disk ≡ store.journal.disk }
    ensures closed { script.new ≡ record script.old { tally = closing script.old.tally script.old.opened_before store.state.sum } }
{
    let disk = script.close(store);
    Halted { end, disk }
}
