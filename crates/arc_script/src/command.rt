// The line `D`: a desk is given a command.
ghost use Rattle.std.specs.Prelude.{◌≡◌, ◌⊎◌, ◌≤◌, ◌++◌, ◌∷◌, [], ℕ, List, Some, Err, IfErr, OnOk, OnErr, length};
ghost use Rattle.std.specs.Io.KnownBytes.{append_known};
ghost use Rattle.alarm_rules.specs.Setups.{meaning};
ghost use Rattle.arc_io.specs.Told.{OnlyWrites};
ghost use Rattle.centre_rules.specs.History.{Entry};
ghost use Rattle.centre_rules.specs.Summary.{Summary};
ghost use Rattle.centre_store.specs.Stores.{HasFailed, StoreStands};
ghost use Rattle.script_lines.specs.Lines.{Asked, IsNumber, Command};
ghost use Rattle.arc_script.specs.Carrying.{IsNext, HaveTakenWith, Carried, Halted};
ghost use Rattle.arc_script.specs.Causes.{HasShown, IsOfCommand, stop_in};
ghost use Rattle.arc_script.specs.PageWords.{page_seen};
ghost use Rattle.arc_script.specs.Pages.{head_of, blank};
ghost use Rattle.centre_store.specs.StoreHalls.{is_told};
ghost use Rattle.arc_script.specs.Standing.{IsReadable};
ghost use Rattle.arc_script.specs.Steps.{placed, AddedBy, Commands};

use crate::page::Page;
use crate::replies::{put_head, said};
use crate::script::Script;
use arc_io::{Disk, put};
use centre_core::Stop;
use centre_store::Store;
use desk_session::{DeskEnd, DeskState};
use std::alloc::Global;

// How many bytes a text and the end of a line are at most.
const MOST_LINE: usize = 1002;

/// Feeds a text and the end of a line to a desk, which writes its answer behind the letter and the number. After a `quit` the desk is made anew.
pub(crate) fn command<D: Disk>(
    alloc: Global,
    store: &mut Store<D>,
    script: &mut Script,
    desk: usize,
    text: &[u8],
    page: &mut Page,
) -> Result<(), Stop>
    requires desk { IsNumber 8 desk }
    requires few { length text.now ≤ 1000 }
    requires set { store.old.state.sum.text ≡ Some script.old.setup }
    ensures answered { OnOk result ((base : Summary) (before : List Asked) (clock count number : ℕ) (h : List Entry)
        → IsNext (meaning script.old.setup) clock count before (Command desk text.now) script.old.lines.items script.old.desks.items
        → page_seen page.old ≡ blank clock → StoreStands D.seen base store.old h → IsReadable base h → (HasFailed D.seen store.old → ⊥)
        → Carried D.seen base store.old h (λ x s. Commands (placed base script.old.setup before) desk text.now h x s)
        number (Command desk text.now) script.old.tally script.new.tally (page_seen page.old) (page_seen page.new) store.new) }
    ensures took { OnOk result ((before : List Asked) (clock count : ℕ)
        → IsNext (meaning script.old.setup) clock count before (Command desk text.now) script.old.lines.items script.old.desks.items
        → HaveTakenWith (meaning script.old.setup) count before (Command desk text.now) script.new.lines.items script.new.desks.items) }
    ensures stop { IfErr result (λ stop. (base : Summary) (before : List Asked) (clock count : ℕ) (h : List Entry)
        → IsNext (meaning script.old.setup) clock count before (Command desk text.now) script.old.lines.items script.old.desks.items
        → page_seen page.old ≡ blank clock → StoreStands D.seen base store.old h → IsReadable base h → (HasFailed D.seen store.old → ⊥)
        → Halted D.seen base store.old h (λ x s. HasShown D.seen base store.new x stop clock (IsOfCommand script.old.setup before desk text.now)
        × (((x ≡ h) × AddedBy base h x s) ⊎ ((stop ≡ Stop.Memory) × Commands (placed base script.old.setup before) desk text.now h x s)))
        script.old.tally script.new.tally store.new) }
    ensures set { store.new.state.sum.text ≡ Some script.old.setup }
    ensures rest { script.new ≡ record script.old {
      desks = script.new.desks;
      eight = script.new.eight;
      tally = script.new.tally;
    } }
    ensures tells { is_told (D.seen store.new.journal.disk).told ≡ is_told (D.seen store.old.journal.disk).told }
    ensures at_open { store.new.at_open ≡ store.old.at_open }
    ensures limits { store.new.journal.limits ≡ store.old.journal.limits }
{
    if let Err(stop) = put_asked(page, desk as u64) {
        return Err(stop);
    }
    let mut line = [0; MOST_LINE];
    let line = ended(text, &mut line);
    let open = store.centre().table().count() as u64;
    let end = script.desks[desk - 1].take(alloc, store, page, line);
    let closed = open.saturating_sub(store.centre().table().count() as u64);
    script.tally.closed = script.tally.closed.saturating_add(closed);
    match end {
        Ok(()) => Ok(()),
        Err(DeskEnd::Quit) => {
            script.desks[desk - 1] = DeskState::new();
            Ok(())
        }
        Err(end) => Err(stop_of(end)),
    }
}

// The stop for which a desk ended without a `quit`. A page takes all that is written unless memory is wanted, and no desk is fed as many
// bytes as a session may take.
fn stop_of(end: DeskEnd) -> Stop
    ensures { result ≡ stop_in end }
{
    match end {
        DeskEnd::Stopped(stop) => stop,
        _ => Stop::Memory,
    }
}

// Puts the letter, the desk's number and a space.
#[tactic(auto, using(arc_io::proofs::KnownMore::known_both))]
fn put_asked(page: &mut Page, desk: u64) -> Result<(), Stop>
    ensures put { OnOk result ((page_seen page.new).written ≡ append_known (page_seen page.old).written (head_of 68 desk ++ 32 ∷ [])) }
    ensures only { OnlyWrites (page_seen page.old) (page_seen page.new) }
    ensures stop { OnErr result (result ≡ Err Stop.Memory) }
{
    said(put_head(page, b'D', desk))?;
    said(put(page, b" "))
}

// A text and the end of a line. That has a carriage return of its own, so one at the end of the text is part of the command.
fn ended<'a>(text: &[u8], line: &'a mut [u8; MOST_LINE]) -> &'a [u8]
    requires { length text.now ≤ 1000 }
    ensures { result.now ≡ text.now ++ 13 ∷ 10 ∷ [] }
{
    let line = &mut line[..text.len() + 2];
    let (front, end) = line.split_at_mut(text.len());
    front.copy_from_slice(text);
    end.copy_from_slice(b"\r\n");
    line
}
