// The lines of a panel's input, one after another.
ghost use Rattle.std.specs.Prelude.{◌≡◌, ◌<◌, ◌≤◌, ◌+◌, ◌^◌, ◌++◌, ◌∷◌, [], ℕ, List, IfErr, IfOk, IfSome, length};
ghost use Rattle.arc_io.specs.Seen.{PortSeen};
ghost use Rattle.arc_io.specs.Told.{OnlyWrites};
ghost use Rattle.arc_text.specs.LineCutting.{WasFed, cut_of, line_of};
ghost use Rattle.arc_text.specs.Lines.{ended_lines};
ghost use Rattle.panel_rules.specs.Panels.{Setting, Happening};
ghost use Rattle.arc_panel.specs.Lines.{MayStep, line_limit, moment};
ghost use Rattle.arc_panel.specs.Playing.{Halts, HaltsIn, IsSaid, SoFar};
ghost use Rattle.arc_panel.specs.Reading.{said};

use crate::answer::answer;
use crate::line::PanelLine;
use arc_data::Memory;
use arc_io::{Failed, Port, put};
use arc_text::{LineCut, LineCutter};
use panel_core::Panel;
use std::alloc::Global;

/// How the playing of a panel's lines ended.
#[derive(Clone, Copy, Debug, PartialEq, Eq)]
pub enum PanelEnd {
    /// The input was read to its end, and all lines were played.
    Done,
    /// A read failed.
    ReadFault,
    /// A write failed.
    WriteFault,
    /// 2^40 bytes of the input were read.
    Spent,
    /// The line of this number, from 1, has no form of such lines, or its moment is less than the one before.
    BadLine { line: u64 },
    /// Want of memory.
    Memory,
}

/// A panel, and how many lines were taken.
pub(crate) struct Player {
    pub(crate) panel: Panel,
    pub(crate) number: u64,
}

// Written out: one call wherever one is dropped, where a derived drop is spelled out at each exit.
impl Drop for Player {
    fn drop(self) {
        let Player { panel, number: _ } = self;
        drop(panel);
    }
}

/// Plays each line that ends in these bytes, behind those that were taken before.
pub(crate) fn play_ended<P: Port>(
    alloc: Global,
    player: &mut Player,
    cutter: &mut LineCutter,
    port: &mut P,
    bytes: &[u8],
) -> Result<(), PanelEnd>
    requires limit { cutter.old.limit ≡ line_limit }
    requires fed { (stream : List ℕ) × WasFed stream cutter.old }
    requires few { player.old.number + length bytes.now < 2 ^ 48 }
    requires count { length player.old.panel.acked ≤ player.old.number }
    ensures limit { cutter.new.limit ≡ line_limit }
    ensures few { player.new.number ≤ player.old.number + length bytes.now }
    ensures count { length player.new.panel.acked ≤ player.new.number }
    ensures fed { IfOk result (λ _. (stream : List ℕ) → WasFed stream cutter.old → WasFed (stream ++ bytes.now) cutter.new) }
    ensures played { IfOk result (λ _. (s : Setting) (p : PortSeen) (stream : List ℕ) → WasFed stream cutter.old
        → SoFar s p (ended_lines stream) player.old (P.seen port.old)
        → SoFar s p (ended_lines (stream ++ bytes.now)) player.new (P.seen port.new)) }
    ensures halted { IfErr result (λ end. (s : Setting) (p : PortSeen) (stream : List ℕ) → WasFed stream cutter.old
        → SoFar s p (ended_lines stream) player.old (P.seen port.old)
        → HaltsIn s p (ended_lines stream) (ended_lines (stream ++ bytes.now)) end (P.seen port.new)) }
    ensures only { OnlyWrites (P.seen port.old) (P.seen port.new) }
{
    let mut at = 0;
    while at < bytes.len() {
        let (count, cut) = cutter.feed(&bytes[at..]);
        at += count;
        if let Some(cut) = cut {
            play_line(alloc, player, port, cut, cutter.line())?;
        }
    }
    Ok(())
}

/// Plays a line that was cut so.
pub(crate) fn play_line<P: Port>(
    alloc: Global,
    player: &mut Player,
    port: &mut P,
    cut: LineCut,
    line: &[u8],
) -> Result<(), PanelEnd>
    requires few { player.old.number < 2 ^ 48 }
    requires count { length player.old.panel.acked ≤ player.old.number }
    ensures number { player.new.number ≡ player.old.number + 1 }
    ensures count { length player.new.panel.acked ≤ player.new.number }
    ensures played { IfOk result (λ _. (s : Setting) (p : PortSeen) (lines : List (List ℕ)) (typed : List ℕ)
        → cut ≡ cut_of line_limit typed → line.now ≡ line_of cut typed
        → SoFar s p lines player.old (P.seen port.old) → SoFar s p (lines ++ typed ∷ []) player.new (P.seen port.new)) }
    ensures halted { IfErr result (λ end. (s : Setting) (p : PortSeen) (lines : List (List ℕ)) (typed : List ℕ)
        → cut ≡ cut_of line_limit typed → line.now ≡ line_of cut typed
        → SoFar s p lines player.old (P.seen port.old) → Halts s p lines typed end (P.seen port.new)) }
    ensures only { OnlyWrites (P.seen port.old) (P.seen port.new) }
{
    player.number += 1;
    let Some(read) = said_at(cut, line, player.panel.moment()) else {
        return Err(PanelEnd::BadLine {
            line: player.number,
        });
    };
    match answer(alloc, &mut player.panel, read) {
        Ok(text) => match put(port, text.bytes()) {
            Ok(()) => Ok(()),
            Err(Failed) => Err(PanelEnd::WriteFault),
        },
        Err(Memory) => Err(PanelEnd::Memory),
    }
}

// What a line that was cut so says behind a step at a moment. None where it says nothing there.
fn said_at<'a>(cut: LineCut, line: &'a [u8], before: u64) -> Option<PanelLine<'a>>
    ensures said { (h : List Happening) (typed : List ℕ) → cut ≡ cut_of line_limit typed → line.now ≡ line_of cut typed → before ≡ moment h → IsSaid h typed result }
    ensures may { IfSome result (λ read. MayStep before (said read)) }
{
    let LineCut::Whole = cut else {
        return None;
    };
    let read = PanelLine::read(line)?;
    match read {
        PanelLine::Step { now } if now < before => None,
        _ => Some(read),
    }
}
