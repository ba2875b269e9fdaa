// The lines `L` and `M`: bytes or a frame are fed to a line.
ghost use Rattle.std.specs.Prelude.{◌≡◌, ◌≢◌, ◌⊎◌, ◌<◌, ◌≤◌, ◌-◌, ◌++◌, ◌∷◌, [], ℕ, List, Some, Err, IfErr, IfOk, IsOk, OnOk, length, slice_get};
ghost use Rattle.std.specs.Io.KnownBytes.{append_known};
ghost use Rattle.arc_data.specs.Moments.{IsMoment};
ghost use Rattle.alarm_rules.specs.Setups.{meaning};
ghost use Rattle.arc_data.specs.Digits.{bytes_spelled};
ghost use Rattle.arc_io.specs.Memory.{sink_bytes};
ghost use Rattle.centre_rules.specs.History.{Entry};
ghost use Rattle.centre_rules.specs.Summary.{Summary};
ghost use Rattle.centre_store.specs.Stores.{HasFailed, StoreStands};
ghost use Rattle.dc09_frame.specs.Frames.{IsBody, frame_of};
ghost use Rattle.script_lines.specs.Lines.{Asked, AreDigits, IsNumber, Feed, Message};
ghost use Rattle.session_rules.specs.Inputs.{input_limit};
ghost use Rattle.arc_script.specs.Carrying.{IsNext, HaveTakenWith, Carried, Halted};
ghost use Rattle.arc_script.specs.Causes.{HasShown, IsOfFrame, IsSentFor};
ghost use Rattle.arc_script.specs.Fed.{clock_of, line_fed};
ghost use Rattle.arc_script.specs.Feeding.{TookAt, HasFed, FeedStops, stop_in};
ghost use Rattle.arc_script.specs.PageWords.{page_seen};
ghost use Rattle.arc_script.specs.Pages.{head_of, replied};
ghost use Rattle.centre_store.specs.StoreHalls.{is_told};
ghost use Rattle.arc_script.specs.Standing.{IsReadable};
ghost use Rattle.arc_script.specs.Steps.{placed, FeedsUntil, Feeds};

use crate::page::Page;
use crate::replies::{put_replies, said};
use crate::script::{Script, name_of};
use arc_io::Disk;
use centre_core::{Centre, Stop};
use centre_store::Store;
use dc09_frame::{FrameBuf, write_frame};
use line_session::LineEnd;
use script_lines::{MOST_DIGITS, spelled};
use std::alloc::Global;

/// Feeds the bytes that digits spell.
pub(crate) fn feed<D: Disk>(
    alloc: Global,
    store: &mut Store<D>,
    script: &mut Script,
    moment: u64,
    line: usize,
    digits: &[u8],
    page: &mut Page,
) -> Result<(), Stop>
    requires clock { IsMoment moment }
    requires line { IsNumber 16 line }
    requires digits { AreDigits digits.now }
    requires few { length digits.now ≤ 16_384 }
    requires set { store.old.state.sum.text ≡ Some script.old.setup }
    ensures fed { OnOk result ((base : Summary) (before : List Asked) (count number : ℕ) (h : List Entry)
        → IsNext (meaning script.old.setup) moment count before (Feed line digits.now) script.old.lines.items script.old.desks.items
        → StoreStands D.seen base store.old h → IsReadable base h → (HasFailed D.seen store.old → ⊥)
        → Carried D.seen base store.old h (λ x s. Feeds (placed base script.old.setup before) 76 line (bytes_spelled digits.now) h x s)
        number (Feed line digits.now) script.old.tally script.new.tally (page_seen page.old) (page_seen page.new) store.new) }
    ensures took { OnOk result ((before : List Asked) (count : ℕ)
        → IsNext (meaning script.old.setup) moment count before (Feed line digits.now) script.old.lines.items script.old.desks.items
        → HaveTakenWith (meaning script.old.setup) count before (Feed line digits.now) script.new.lines.items script.new.desks.items) }
    ensures stop { IfErr result (λ stop. (base : Summary) (before : List Asked) (count : ℕ) (h : List Entry)
        → IsNext (meaning script.old.setup) moment count before (Feed line digits.now) script.old.lines.items script.old.desks.items
        → StoreStands D.seen base store.old h → IsReadable base h → (HasFailed D.seen store.old → ⊥)
        → Halted D.seen base store.old h (λ x s. (waiting : List (List ℕ))
        × HasShown D.seen base store.new x stop moment (IsOfFrame script.old.setup moment line waiting)
        × (FeedsUntil (placed base script.old.setup before) line (bytes_spelled digits.now) waiting (IsSentFor stop) h x s
        ⊎ ((stop ≡ Stop.Memory) × Feeds (placed base script.old.setup before) 76 line (bytes_spelled digits.now) h x s)))
        script.old.tally script.new.tally store.new) }
    ensures set { store.new.state.sum.text ≡ Some script.old.setup }
    ensures rest { script.new ≡ record script.old {
      lines = script.new.lines;
      sixteen = script.new.sixteen;
      tally = script.new.tally;
    } }
    ensures tells { is_told (D.seen store.new.journal.disk).told ≡ is_told (D.seen store.old.journal.disk).told }
    ensures at_open { store.new.at_open ≡ store.old.at_open }
    ensures limits { store.new.journal.limits ≡ store.old.journal.limits }
{
    let mut bytes = [0; MOST_DIGITS / 2];
    let bytes = spelled(digits, &mut bytes);
    let frames = fed(alloc, store, script, moment, line, bytes);
    put_fed(page, b'L', line as u64, frames)
}

/// Feeds the frame of a body, which is built in the lent buffer, after which the line is made anew.
pub(crate) fn message<D: Disk>(
    alloc: Global,
    store: &mut Store<D>,
    script: &mut Script,
    moment: u64,
    line: usize,
    body: &[u8],
    frame: &mut FrameBuf,
    page: &mut Page,
) -> Result<(), Stop>
    requires clock { IsMoment moment }
    requires line { IsNumber 16 line }
    requires body { IsBody body.now }
    requires set { store.old.state.sum.text ≡ Some script.old.setup }
    ensures fed { OnOk result ((base : Summary) (before : List Asked) (count number : ℕ) (h : List Entry)
        → IsNext (meaning script.old.setup) moment count before (Message line body.now) script.old.lines.items script.old.desks.items
        → StoreStands D.seen base store.old h → IsReadable base h → (HasFailed D.seen store.old → ⊥)
        → Carried D.seen base store.old h (λ x s. Feeds (placed base script.old.setup before) 77 line (frame_of body.now) h x s)
        number (Message line body.now) script.old.tally script.new.tally (page_seen page.old) (page_seen page.new) store.new) }
    ensures took { OnOk result ((before : List Asked) (count : ℕ)
        → IsNext (meaning script.old.setup) moment count before (Message line body.now) script.old.lines.items script.old.desks.items
        → HaveTakenWith (meaning script.old.setup) count before (Message line body.now) script.new.lines.items script.new.desks.items) }
    ensures stop { IfErr result (λ stop. (base : Summary) (before : List Asked) (count : ℕ) (h : List Entry)
        → IsNext (meaning script.old.setup) moment count before (Message line body.now) script.old.lines.items script.old.desks.items
        → StoreStands D.seen base store.old h → IsReadable base h → (HasFailed D.seen store.old → ⊥)
        → Halted D.seen base store.old h (λ x s. (waiting : List (List ℕ))
        × HasShown D.seen base store.new x stop moment (IsOfFrame script.old.setup moment line waiting)
        × (FeedsUntil (placed base script.old.setup before) line (frame_of body.now) waiting (IsSentFor stop) h x s
        ⊎ ((stop ≡ Stop.Memory) × Feeds (placed base script.old.setup before) 77 line (frame_of body.now) h x s)))
        script.old.tally script.new.tally store.new) }
    ensures set { store.new.state.sum.text ≡ Some script.old.setup }
    ensures rest { script.new ≡ record script.old {
      lines = script.new.lines;
      sixteen = script.new.sixteen;
      tally = script.new.tally;
    } }
    ensures tells { is_told (D.seen store.new.journal.disk).told ≡ is_told (D.seen store.old.journal.disk).told }
    ensures at_open { store.new.at_open ≡ store.old.at_open }
    ensures limits { store.new.journal.limits ≡ store.old.journal.limits }
{
    write_frame(body, frame);
    let frames = fed(alloc, store, script, moment, line, frame.bytes());
    script.lines[line - 1].renew(name_of(line));
    put_fed(page, b'M', line as u64, frames)
}

// Puts the replies of what was fed, unless the line was stopped.
fn put_fed(page: &mut Page, letter: u8, number: u64, frames: Result<Page, Stop>) -> Result<(), Stop>
    ensures put { OnOk result (IfOk frames (λ f. (page_seen page.new).written
        ≡ append_known (page_seen page.old).written (head_of letter number ++ replied (sink_bytes f.port.sink) ++ 10 ∷ []))) }
    ensures fed { OnOk result (IsOk frames) }
    ensures stop { IfErr result (λ s. (IsOk frames × (s ≡ Stop.Memory)) ⊎ (frames ≡ Err s)) }
{
    let frames = frames?;
    said(put_replies(page, letter, number, frames.text()))
}

// Feeds bytes to a line, and gives what it wrote. It is counted whether the line was stopped or not.
fn fed<D: Disk>(
    alloc: Global,
    store: &mut Store<D>,
    script: &mut Script,
    moment: u64,
    line: usize,
    bytes: &[u8],
) -> Result<Page, Stop>
    requires clock { IsMoment moment }
    requires line { IsNumber 16 line }
    requires set { store.old.state.sum.text ≡ Some script.old.setup }
    ensures fed { IfOk result (λ frames. (base : Summary) (before : List Asked) (h : List Entry) → clock_of before ≡ Some moment
        → TookAt (line_fed line before) script.old.lines.items (line - 1) → length (line_fed line before ++ bytes.now) < input_limit
        → StoreStands D.seen base store.old h → IsReadable base h → (HasFailed D.seen store.old → ⊥)
        → HasFed D.seen (placed base script.old.setup before) line bytes.now h script.old.tally script.new.tally
        (sink_bytes frames.port.sink) store.old store.new) }
    ensures took { OnOk result ((stream : List ℕ) → TookAt stream script.old.lines.items (line - 1)
        → length (stream ++ bytes.now) < input_limit → TookAt (stream ++ bytes.now) script.new.lines.items (line - 1)) }
    ensures stop { IfErr result (λ stop. (base : Summary) (before : List Asked) (h : List Entry) → clock_of before ≡ Some moment
        → TookAt (line_fed line before) script.old.lines.items (line - 1) → length (line_fed line before ++ bytes.now) < input_limit
        → StoreStands D.seen base store.old h → IsReadable base h → (HasFailed D.seen store.old → ⊥)
        → FeedStops D.seen (placed base script.old.setup before) moment line bytes.now h script.old.tally script.new.tally stop
        store.old store.new) }
    ensures set { store.new.state.sum.text ≡ Some script.old.setup }
    ensures others { (i : ℕ) → i ≢ line - 1 → slice_get script.new.lines.items i ≡ slice_get script.old.lines.items i }
    ensures rest { script.new ≡ record script.old {
      lines = script.new.lines;
      sixteen = script.new.sixteen;
      tally = script.new.tally;
    } }
    ensures tells { is_told (D.seen store.new.journal.disk).told ≡ is_told (D.seen store.old.journal.disk).told }
    ensures at_open { store.new.at_open ≡ store.old.at_open }
    ensures limits { store.new.journal.limits ≡ store.old.journal.limits }
{
    let Ok(mut frames) = Page::new(alloc, moment) else {
        return Err(Stop::Memory);
    };
    let quiet = quiet_of(store.centre());
    let end = script.lines[line - 1].take(alloc, store, &mut frames, bytes);
    let repeats = quiet_of(store.centre()).saturating_sub(quiet);
    script.tally.sent = script.tally.sent.saturating_add(frames.taken());
    script.tally.repeats = script.tally.repeats.saturating_add(repeats);
    match end {
        Ok(()) => Ok(frames),
        Err(end) => Err(stop_of(end)),
    }
}

// The stop for which a line ended. A page takes all that is written unless memory is wanted, and no line is fed as many bytes as a session
// may take.
fn stop_of(end: LineEnd) -> Stop
    ensures { result ≡ stop_in end }
{
    match end {
        LineEnd::Stopped(stop) => stop,
        _ => Stop::Memory,
    }
}

// How many entries are not recorded. Of what a line reports these are the repeats.
fn quiet_of(centre: &Centre) -> u64
    ensures { result ≡ centre.now.entries - centre.now.sum.recorded }
{
    centre.entries().saturating_sub(centre.recorded())
}
