// What is known of one account.
ghost use Rattle.std.specs.Prelude.{◌≡◌, ◌∷◌, ◌&&◌, ◌||◌, take, false, Some, IfOk};
ghost use Rattle.std.specs.Option.{option_map};
ghost use Rattle.arc_data.specs.Classes.{same_class};
ghost use Rattle.arc_data.specs.declared.signal.Class.TheVariants.{CommFail, LateClose};
ghost use Rattle.centre_rules.specs.Marks.{now_late, opening_by};

use arc_data::{Carried, Class, Kind, Memory, Opened};
use repeat_window::{Seen, Window};
use std::alloc::Global;

/// When the account was last heard, whether a Tick has raised a CommFail of it since, its last opening signal while it is open, and
/// its last 32 messages.
#[derive(Drop)]
pub struct Row {
    pub heard: Option<u64>,
    pub failed: bool,
    pub opening: Option<Opened>,
    pub window: Window,
}

/// What deadlines of an account go by: when it was last heard, whether a Tick has raised a CommFail of it since, and its last opening
/// signal while it is open.
#[derive(Clone, Copy)]
pub struct Known {
    pub heard: Option<u64>,
    pub failed: bool,
    pub opening: Option<Opened>,
}

impl Row {
    /// What deadlines go by.
    pub(crate) fn known(&self) -> Known
        ensures { result ≡ record { heard = self.now.heard; failed = self.now.failed; opening = self.now.opening } }
    {
        Known {
            heard: self.heard,
            failed: self.failed,
            opening: self.opening,
        }
    }

    /// A copy of it. The error is want of memory.
    pub fn copy(&self, alloc: Global) -> Result<Row, Memory>
        ensures { IfOk result (λ row. row ≡ self.now) }
    {
        let window = self.window.copy(alloc)?;
        Ok(Row {
            heard: self.heard,
            failed: self.failed,
            opening: self.opening,
            window,
        })
    }

    /// The account was heard.
    pub(crate) fn hear(&mut self, at: u64)
        ensures { self.new ≡ record self.old { heard = Some at; failed = false } }
    {
        self.heard = Some(at);
        self.failed = false;
    }

    /// A message of the account is recorded.
    pub(crate) fn send(&mut self, seen: Seen)
        ensures { self.new ≡ record self.old { heard = Some seen.at; failed = false; window = take 32 (seen ∷ self.old.window) } }
    {
        self.hear(seen.at);
        self.window.push(seen);
    }

    /// The account has a signal.
    pub(crate) fn carry(&mut self, x: &Carried)
        ensures { self.new ≡ record self.old {
          failed = (x.now.by_tick && same_class x.now.signal.class CommFail) || self.old.failed;
          opening = opening_by x.now.signal.kind x.now.at (x.now.by_tick && same_class x.now.signal.class LateClose) self.old.opening;
        } }
    {
        if x.by_tick && x.signal.class == Class::CommFail {
            self.failed = true;
        }
        let late = x.by_tick && x.signal.class == Class::LateClose;
        self.opening = opening_after(self.opening, x.signal.kind, x.at, late);
    }
}

// The opening after a signal of this kind. A late closing may have been raised by it.
fn opening_after(before: Option<Opened>, kind: Kind, at: u64, late: bool) -> Option<Opened>
    ensures { result ≡ opening_by kind at late before }
{
    match kind {
        Kind::Opening => Some(Opened { at, late: false }),
        Kind::Closing => None,
        _ => { if late { late_now(before) } else { before } }
    }
}

fn late_now(before: Option<Opened>) -> Option<Opened>
    ensures { result ≡ option_map now_late before }
{
    match before {
        None => None,
        Some(opened) => Some(Opened {
            at: opened.at,
            late: true,
        }),
    }
}
