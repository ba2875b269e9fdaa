// What a panel does with what a line says, as a line of its output.
ghost use Rattle.std.specs.Prelude.{◌≡◌, ◌<◌, ◌≤◌, ◌+◌, ◌^◌, ◌++◌, ◌-◌, codes, decimal, List, ◌∷◌, length, take, IfOk};
ghost use Rattle.panel_core.specs.Standing.{StandsFor};
ghost use Rattle.panel_rules.specs.Panels.{Setting, Happening};
ghost use Rattle.arc_panel.specs.Lines.{MayStep, moment_at};
ghost use Rattle.arc_panel.specs.Reading.{said};
ghost use Rattle.arc_panel.specs.Texts.{frame_line, heard_text, line_of, queued_text};

use crate::line::PanelLine;
use arc_data::{Blob, Memory};
use dc09_frame::FrameBuf;
use itoa::Buffer;
use panel_core::{Heard, Panel, Queued};
use std::alloc::{AllocError, Global};

/// Does what a line says, and answers the line of the output.
pub(crate) fn answer(alloc: Global, panel: &mut Panel, read: PanelLine) -> Result<Blob, Memory>
    requires may { MayStep panel.old.stepped (said read) }
    requires few { length panel.old.acked < 2 ^ 48 }
    ensures text { (s : Setting) (h : List Happening) → StandsFor s h panel.old → IfOk result (λ text. text ≡ line_of s h (said read.entry)) }
    ensures stands { (s : Setting) (h : List Happening) → StandsFor s h panel.old → IfOk result (λ _. StandsFor s (said read.entry ∷ h) panel.new) }
    ensures moment { IfOk result (λ _. panel.new.stepped ≡ moment_at (said read.entry) panel.old.stepped) }
    ensures count { length panel.new.acked ≤ length panel.old.acked + 1 }
{
    match read {
        PanelLine::Step { now } => {
            let mut frame = FrameBuf::new();
            let _ = panel.step(now, &mut frame);
            frame_line(alloc, frame.bytes())
        }
        PanelLine::Queue { token, content } => {
            let content = Blob::of(alloc, content)?;
            let queued = panel.queue(token, content)?;
            queued_line(alloc, queued)
        }
        PanelLine::Hear { body } => heard_line(alloc, panel.hear(body)),
    }
}

// The line of a step, by the frame that it left.
fn frame_line(alloc: Global, frame: &[u8]) -> Result<Blob, Memory>
    ensures { IfOk result (λ text. text ≡ frame_line frame.now) }
{
    match frame {
        [] => Blob::of(alloc, b"T -\n"),
        [_, rest @ ..] => match put_between(alloc, b"T ", but_last(rest), b"\n") {
            Ok(text) => Ok(Blob::of_vec(text)),
            Err(_) => Err(Memory),
        },
    }
}

// All bytes but the last.
fn but_last(bytes: &[u8]) -> &[u8]
    ensures { result.now ≡ take (length bytes.now - 1) bytes.now }
{
    &bytes[..bytes.len().saturating_sub(1)]
}

// Bytes between two others.
fn put_between(alloc: Global, front: &[u8], bytes: &[u8], end: &[u8]) -> Result<Vec<u8>, AllocError>
    ensures { IfOk result (λ text. text.items ≡ front.now ++ bytes.now ++ end.now) }
{
    let mut text = front.to_vec(alloc)?;
    text.extend_from_slice(bytes)?;
    text.extend_from_slice(end)?;
    Ok(text)
}

// The line of an event.
fn queued_line(alloc: Global, queued: Queued) -> Result<Blob, Memory>
    ensures { IfOk result (λ text. text ≡ codes "E " ++ queued_text queued ++ codes "\n") }
{
    match queued {
        Queued::Taken { event } => numbered_line(alloc, b"E ", event),
        Queued::Full => Blob::of(alloc, b"E full\n"),
        Queued::BadData => Blob::of(alloc, b"E bad\n"),
    }
}

// The line of a reply.
fn heard_line(alloc: Global, heard: Heard) -> Result<Blob, Memory>
    ensures { IfOk result (λ text. text ≡ codes "R " ++ heard_text heard ++ codes "\n") }
{
    match heard {
        Heard::Acked { event } => numbered_line(alloc, b"R acked ", event),
        Heard::Other => Blob::of(alloc, b"R other\n"),
    }
}

// A line of some bytes and a number.
fn numbered_line(alloc: Global, front: &[u8], number: u64) -> Result<Blob, Memory>
    ensures { IfOk result (λ text. text ≡ front.now ++ decimal number ++ codes "\n") }
{
    let mut buffer = Buffer::new();
    let digits = buffer.format(number);
    match put_between(alloc, front, digits.as_bytes(), b"\n") {
        Ok(text) => Ok(Blob::of_vec(text)),
        Err(_) => Err(Memory),
    }
}
