// A panel.
ghost use Rattle.std.specs.Prelude.{◌≡◌, ◌<◌, ◌≤◌, ◌+◌, ◌-◌, ◌^◌, ◌==◌, ◌&&◌, List, [], ◌∷◌, length, nat_le, slice_index_or, true, false, Some, None, is_some, if◌then◌else◌, IfSome, IfOk, OnOk, OnErr};
ghost use Rattle.arc_data.specs.Moments.{IsMoment};
ghost use Rattle.panel_rules.specs.declared.Heard.TheVariants.{Other};
ghost use Rattle.panel_rules.specs.Marks.{count, fate, is_after};
ghost use Rattle.panel_rules.specs.Panels.{Setting, Happening, Queue, Step, Hear, body_sent, heard, is_setting, marks, queued};
ghost use Rattle.panel_core.specs.Sending.{copied_with, copies_with, frame_sent, is_ack_of, body_in_flight, acknowledged, pushed, still, IsGood};
ghost use Rattle.panel_core.specs.Standing.{StandsFor};

use crate::flight::Flight;
use crate::message::{is_ack, write_message};
use crate::report::is_bad;
use crate::setting::{is_line, is_number, is_panel_account, next_number};
use arc_data::{Blob, Memory, Token, Txt};
use dc09_frame::FrameBuf;
use panel_rules::{Fate, Heard, Queued, Report};
use std::alloc::Global;
use std::collections::VecDeque;
use std::marker::Model;

// How many events may wait, and how long after the first copy of an event's message that of the next one is sent, in seconds.
const WAITING_LIMIT: usize = 1000;

const BEGUN_AFTER: u64 = 10;

/// The transmitter of a panel: the events that wait to be sent, the message in flight, and what came of each event. It has one account
/// and one line number. Time is the moments of its steps, in seconds since 1970.
pub struct Panel {
    account: Txt,
    line: Txt,
    // The number of the message that is sent next.
    next: u16,
    // Of how many events the message was sent at least once.
    sent: u64,
    // When the last of these was sent first.
    begun: Option<u64>,
    // The moment of the last step.
    stepped: u64,
    // The message of the last of these, until it is acknowledged or given up.
    flight: Option<Flight>,
    waiting: VecDeque<Report>,
    // Of each event, whether its message was acknowledged.
    acked: Vec<bool>,
}

// Written out: one call wherever one is dropped, where a derived drop is spelled out at each exit.
impl Drop for Panel {
    fn drop(self) {
        let Panel {
            account: _,
            line: _,
            next: _,
            sent: _,
            begun: _,
            stepped: _,
            flight,
            waiting,
            acked,
        } = self;
        drop(flight);
        drop(waiting);
        drop(acked);
    }
}

impl Model for Panel {
    ghost use Rattle.panel_core.specs.Sending.{IsPanel};
    ghost use Rattle.panel_core.specs.Standing.{PanelValue, value_of};

    ghost Value = { PanelValue };

    ghost view = { λ p. value_of p.account p.line p.next p.sent p.begun p.stepped p.flight p.waiting.items p.acked.items };

    ghost invariant = { λ p. IsPanel (value_of p.account p.line p.next p.sent p.begun p.stepped p.flight p.waiting.items p.acked.items) };
}

impl Panel {
    /// A panel to which nothing has happened: its account, its line number, and the number of its first message. None exactly
    /// where the account is not 3 to 16 hexadecimal digits in capitals, the line not 1 to 6 hexadecimal digits, or the number not
    /// 1 to 9999. Takes no memory.
    pub fn new(alloc: Global, account: Txt, line: Txt, first: u16) -> Option<Panel>
        ensures exactly { is_some result ≡ is_setting (record { account = account; line = line; first = first }) }
        ensures stands { IfSome result (λ p. StandsFor (record { account = account; line = line; first = first }) [] p) }
        ensures moment { IfSome result (λ p. p.stepped ≡ 0) }
        ensures count { IfSome result (λ p. length p.acked ≡ 0) }
    {
        if !is_panel_account(account.bytes()) || !is_line(line.bytes()) || !is_number(first) {
            return None;
        }
        Some(Panel {
            account,
            line,
            next: first,
            sent: 0,
            begun: None,
            stepped: 0,
            flight: None,
            waiting: VecDeque::new(alloc),
            acked: Vec::new(alloc),
        })
    }

    /// Gives it an event to send. The error is want of memory, and then nothing has changed.
    pub fn queue(&mut self, token: Token, content: Blob) -> Result<Queued, Memory>
        requires { length self.old.acked < 2 ^ 48 }
        ensures told { (s : Setting) (h : List Happening) → StandsFor s h self.old → IfOk result (λ q. q ≡ queued (marks s h) token content) }
        ensures stands { (s : Setting) (h : List Happening) → StandsFor s h self.old → IfOk result (λ _. StandsFor s (Queue token content ∷ h) self.new) }
        ensures kept { OnErr result (self.new ≡ self.old) }
        ensures moment { self.new.stepped ≡ self.old.stepped }
        ensures count { length self.new.acked ≤ length self.old.acked + 1 }
    {
        if is_bad(token, content.bytes()) {
            return Ok(Queued::BadData);
        }
        if self.is_full() {
            return Ok(Queued::Full);
        }
        self.push(Report { token, content })?;
        Ok(Queued::Taken {
            event: self.taken(),
        })
    }

    /// Does a step at a moment, in seconds since 1970. True where it sends a copy of a message, and then `out` is its frame; where it
    /// sends none `out` is empty. Takes no memory.
    pub fn step(&mut self, now: u64, out: &mut FrameBuf) -> bool
        requires moment { IsMoment now }
        requires later { self.old.stepped ≤ now }
        ensures told { (s : Setting) (h : List Happening) → StandsFor s h self.old → result ≡ is_some (body_sent s h now) }
        ensures frame { (s : Setting) (h : List Happening) → StandsFor s h self.old → out.new ≡ frame_sent (body_sent s h now) }
        ensures stands { (s : Setting) (h : List Happening) → StandsFor s h self.old → StandsFor s (Step now ∷ h) self.new }
        ensures moment { self.new.stepped ≡ now }
        ensures count { length self.new.acked ≡ length self.old.acked }
    {
        self.give_up(now);
        let sends = self.send(now);
        if sends {
            self.write(out);
        } else {
            out.clear();
        }
        sends
    }

    /// Hears the body of a reply. Takes no memory.
    pub fn hear(&mut self, body: &[u8]) -> Heard
        ensures told { (s : Setting) (h : List Happening) → StandsFor s h self.old → result ≡ heard s (marks s h) body.now }
        ensures stands { (s : Setting) (h : List Happening) → StandsFor s h self.old → StandsFor s (Hear body.now ∷ h) self.new }
        ensures other { result ≡ Other → self.new ≡ self.old }
        ensures moment { self.new.stepped ≡ self.old.stepped }
        ensures count { length self.new.acked ≡ length self.old.acked }
    {
        if !self.is_acked_by(body) {
            return Heard::Other;
        }
        let event = self.acknowledge();
        Heard::Acked { event }
    }

    /// What came so far of an event that was taken.
    pub fn fate(&self, event: u64) -> Fate
        requires first { 1 ≤ event }
        requires taken { event ≤ length self.now.acked }
        ensures { (s : Setting) (h : List Happening) → StandsFor s h self.now → result ≡ fate (marks s h) event }
    {
        if event > self.sent {
            Fate::Waiting
        } else if self.is_in_flight(event) {
            Fate::InFlight
        } else if self.is_acked(event) {
            Fate::Acked
        } else {
            Fate::GivenUp
        }
    }

    /// How many events were taken.
    pub fn taken(&self) -> u64
        ensures value { result ≡ length self.now.acked }
        ensures taken { (s : Setting) (h : List Happening) → StandsFor s h self.now → result ≡ count (marks s h) }
    {
        self.acked.len() as u64
    }

    /// The moment of its last step: 0 before the first.
    pub fn moment(&self) -> u64
        ensures { result ≡ self.now.stepped }
    {
        self.stepped
    }

    // Whether the message of an event is in flight.
    fn is_in_flight(&self, event: u64) -> bool
        ensures { result ≡ ((event == self.now.sent) && is_some self.now.flight) }
    {
        event == self.sent && self.flight.is_some()
    }

    // Whether the message of an event was acknowledged.
    fn is_acked(&self, event: u64) -> bool
        requires first { 1 ≤ event }
        requires taken { event ≤ length self.now.acked }
        ensures { result ≡ slice_index_or self.now.acked (event - 1) false }
    {
        self.acked[event as usize - 1]
    }

    // Whether no event more may wait.
    fn is_full(&self) -> bool
        ensures { result ≡ nat_le 1000 (length self.now.waiting) }
    {
        self.waiting.len() >= WAITING_LIMIT
    }

    // Lets an event wait. The error is want of memory, and then nothing has changed.
    fn push(&mut self, report: Report) -> Result<(), Memory>
        requires good { IsGood report }
        requires many { length self.old.acked < 2 ^ 48 }
        ensures pushed { OnOk result (self.new ≡ pushed self.old report) }
        ensures counted { length self.old.acked ≡ self.old.sent + length self.old.waiting }
        ensures kept { OnErr result (self.new ≡ self.old) }
    {
        let Ok(()) = self.waiting.reserve(1) else {
            return Err(Memory);
        };
        let Ok(()) = self.acked.reserve(1) else {
            return Err(Memory);
        };
        self.waiting.push_back_reserved(report);
        self.acked.push_reserved(false);
        Ok(())
    }

    // Marks the last event that was sent as acknowledged: it is in flight no more. Its number is the answer.
    fn acknowledge(&mut self) -> u64
        requires { 1 ≤ self.old.sent }
        ensures number { result ≡ self.old.sent }
        ensures acked { self.new ≡ acknowledged self.old }
        ensures within { self.old.sent ≤ length self.old.acked }
    {
        self.acked[self.sent as usize - 1] = true;
        self.flight = None;
        self.sent
    }

    // Gives up the message in flight where it is late.
    fn give_up(&mut self, now: u64)
        requires moment { IsMoment now }
        requires later { self.old.stepped ≤ now }
        ensures { self.new ≡ record self.old { stepped = now; flight = still now self.old.flight } }
    {
        self.stepped = now;
        if is_late(&self.flight, now) {
            self.flight = None;
        }
    }

    // Puts a copy into flight where one is sent: a further one of the message in flight, or the first of the next event's.
    fn send(&mut self, now: u64) -> bool
        requires { self.old.stepped ≡ now }
        ensures told { result ≡ copies_with now self.old self.old.flight }
        ensures copied { self.new ≡ copied_with now self.old self.old.flight }
        ensures moment { self.new.stepped ≡ self.old.stepped }
        ensures count { self.new.acked ≡ self.old.acked }
    {
        match &mut self.flight {
            Some(flight) => flight.repeat(now),
            None => self.begin(now),
        }
    }

    // Puts the first copy of the next event's message into flight where it is time.
    fn begin(&mut self, now: u64) -> bool
        requires stepped { self.old.stepped ≡ now }
        requires none { self.old.flight ≡ None }
        ensures told { result ≡ copies_with now self.old None }
        ensures copied { self.new ≡ copied_with now self.old None }
        ensures moment { self.new.stepped ≡ self.old.stepped }
        ensures count { self.new.acked ≡ self.old.acked }
    {
        if !is_time(self.begun, now) {
            return false;
        }
        let Some(report) = self.waiting.pop_front() else {
            return false;
        };
        self.flight = Some(Flight {
            report,
            number: self.next,
            first: now,
            last: now,
        });
        self.next = next_number(self.next);
        self.sent += 1;
        self.begun = Some(now);
        true
    }

    // Makes `out` the frame of the message in flight, or empty where none is.
    fn write(&self, out: &mut FrameBuf)
        ensures { out.new ≡ frame_sent (body_in_flight self.now self.now.flight) }
    {
        match &self.flight {
            Some(flight) => write_message(
                &self.account,
                &self.line,
                flight.number,
                &flight.report,
                out,
            ),
            None => out.clear(),
        }
    }

    // Whether the body acknowledges the message in flight.
    fn is_acked_by(&self, body: &[u8]) -> bool
        ensures told { result ≡ is_ack_of self.now body.now self.now.flight }
        ensures sent { result ≡ true → 1 ≤ self.now.sent }
    {
        match &self.flight {
            Some(flight) => is_ack(
                body,
                &self.account,
                &self.line,
                flight.number,
                flight.report.token,
            ),
            None => false,
        }
    }
}

// Whether a message is in flight that a step at a moment gives up.
fn is_late(flight: &Option<Flight>, now: u64) -> bool
    requires { IfSome flight.now (λ f. IsMoment f.first) }
    ensures { (if result then None else flight.now) ≡ still now flight.now }
{
    match flight {
        Some(flight) => flight.is_late(now),
        None => false,
    }
}

// Whether it is time for the first copy of the next message: at least 10 seconds after that of the one before, where there is one.
fn is_time(begun: Option<u64>, now: u64) -> bool
    requires { IfSome begun (λ b. IsMoment b) }
    ensures { result ≡ is_after 10 now begun }
{
    match begun {
        Some(before) => now >= before + BEGUN_AFTER,
        None => true,
    }
}
