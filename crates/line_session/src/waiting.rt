// Frames that wait for their answers together.
ghost use Rattle.std.specs.Prelude.{◌≡◌, ◌≤◌, ◌<◌, ◌↔◌, ◌++◌, ◌∷◌, [], ℕ, List, All, true, IsTrue, Err, OnOk, IfErr, IfNone, IfSome, length};
ghost use Rattle.alarm_rules.specs.Setups.{meaning};
ghost use Rattle.arc_data.specs.Digits.{is_name};
ghost use Rattle.arc_io.specs.Added.{Answers};
ghost use Rattle.centre_core.specs.Batches.{MayBeSubmitted};
ghost use Rattle.centre_core.specs.Halls.{IsKept};
ghost use Rattle.centre_rules.specs.Summary.{Summary};
ghost use Rattle.centre_rules.specs.History.{Entry};
ghost use Rattle.dc09_frame.specs.Frames.{IsBody};
ghost use Rattle.session_rules.specs.Sessions.{HasShown, changed};
ghost use Rattle.line_session.specs.Dues.{Asked, IsJudged, MayBePut, IsDueUnder, IsAckDue, IsReached, HasPut, SendsDues, bodies_in};
ghost use Rattle.line_session.specs.Groups.{IsHeld, IsHeldOrEnded, IsAnsweredOrEnded};
ghost use Rattle.line_session.specs.Sessions.{IsCutShort, ending_of};
ghost use Rattle.line_session.specs.declared.waiting.Waiting.{Waiting};

use crate::buffers::Buffers;
use crate::due::{Due, Judged, judge, send_due};
use crate::line_end::LineEnd;
use crate::report::{Report, submit_and_acknowledge};
use arc_data::{Event, Memory, Txt};
use arc_io::Port;
use centre_core::{Batch, GroupHall, Grouped, Stop, Submission};
use dc09_frame::{FrameBuf, Header};
use std::alloc::Global;
use std::collections::VecDeque;

/// The frames of a piece that wait for their answers: the events of them that are to be submitted together, and what is due for each. The
/// first acknowledgement is for the first event, and so on.
#[derive(Drop)]
pub(crate) struct Waiting {
    batch: Batch,
    dues: VecDeque<Due>,
}

impl Waiting {
    /// None waits. It takes no memory.
    pub(crate) fn new(alloc: Global) -> Waiting
        ensures { (result.batch ≡ []) × (result.dues.items ≡ []) }
    {
        Waiting {
            batch: Batch::new(alloc),
            dues: VecDeque::new(alloc),
        }
    }

    /// Takes a whole piece of this body, which takes one reading of the clock: it waits behind the others. Where there is no room for that,
    /// all that wait are answered before it.
    pub(crate) fn take<H: GroupHall, P: Port>(
        &mut self,
        alloc: Global,
        hall: &mut H,
        port: &mut P,
        name: &Txt,
        body: &[u8],
        buffers: &mut Buffers,
    ) -> Result<(), LineEnd>
        requires ready { (H.seen hall.old).ready }
        requires name { is_name name.now ≡ true }
        requires body { IsBody body.now }
        requires dues { All (IsDueUnder (meaning (H.seen hall.old).text)) self.old.dues.items }
        ensures dues { OnOk result (All (IsDueUnder (meaning (H.seen hall.new).text)) self.new.dues.items) }
        ensures kept { IsKept (H.seen hall.old) (H.seen hall.new) }
        ensures takes { (b : Summary) (h : List Entry) (bodies : List (List ℕ)) (asked : List Asked) (first : H) (from : P) →
            IsHeld name.now b h bodies asked [] self.old (changed (H.seen first) (H.seen hall.old) (P.seen from) (P.seen port.old)) →
            IsHeldOrEnded result name.now b h (bodies ++ bodies_in asked ++ body.now ∷ []) [] self.new
            (changed (H.seen first) (H.seen hall.new) (P.seen from) (P.seen port.new)) }
        ensures ends { IsCutShort result }
        ensures stop { HasShown (H.seen hall.new) (ending_of result) }
        ensures port { Answers (result ≡ Err LineEnd.WriteFault) (P.seen port.old) (P.seen port.new) }
    {
        let reading = port.now();
        match judge(alloc, hall.setup(), reading, name, body, &mut buffers.text) {
            Ok(judged) => self.put(alloc, hall, port, judged, &mut buffers.reply),
            Err(Memory) => {
                self.answer(alloc, hall, port, &mut buffers.reply)?;
                Err(LineEnd::Stopped(Stop::Memory))
            }
        }
    }

    // Puts a frame last. Where there is no room for it, the others are answered before; and where there is none then, it is answered alone.
    fn put<H: GroupHall, P: Port>(
        &mut self,
        alloc: Global,
        hall: &mut H,
        port: &mut P,
        judged: Judged,
        reply: &mut FrameBuf,
    ) -> Result<(), LineEnd>
        requires ready { (H.seen hall.old).ready }
        requires piece { MayBePut (meaning (H.seen hall.old).text) judged }
        requires dues { All (IsDueUnder (meaning (H.seen hall.old).text)) self.old.dues.items }
        ensures dues { OnOk result (All (IsDueUnder (meaning (H.seen hall.new).text)) self.new.dues.items) }
        ensures kept { IsKept (H.seen hall.old) (H.seen hall.new) }
        ensures takes { (name : List ℕ) (b : Summary) (h : List Entry) (bodies : List (List ℕ)) (asked : List Asked) (a : Asked) (first : H) (from : P) →
            IsJudged name (meaning (H.seen hall.old).text) a.body a.reading judged →
            IsHeld name b h bodies asked (a ∷ []) self.old (changed (H.seen first) (H.seen hall.old) (P.seen from) (P.seen port.old)) →
            IsHeldOrEnded result name b h (bodies ++ bodies_in asked ++ a.body ∷ []) [] self.new
            (changed (H.seen first) (H.seen hall.new) (P.seen from) (P.seen port.new)) }
        ensures ends { IsCutShort result }
        ensures stop { HasShown (H.seen hall.new) (ending_of result) }
        ensures port { Answers (result ≡ Err LineEnd.WriteFault) (P.seen port.old) (P.seen port.new) }
    {
        let Some(judged) = self.offer(judged) else {
            return Ok(());
        };
        self.answer(alloc, hall, port, reply)?;
        match self.offer(judged) {
            Some(judged) => answer_alone(alloc, hall, port, judged, reply),
            None => Ok(()),
        }
    }

    // Puts a frame last, or gives it back: where 64 events wait and it is one more, and where memory is refused.
    fn offer(&mut self, judged: Judged) -> Option<Judged>
        requires { IfSome judged.event (λ event. MayBeSubmitted (record { event = event; clock = judged.reading })) }
        ensures put { IfNone result (HasPut self.old self.new judged) }
        ensures back { IfSome result (λ back. (back ≡ judged) × (self.new.batch ≡ self.old.batch) × (self.new.dues.items ≡ self.old.dues.items)) }
    {
        let Ok(()) = self.dues.reserve(1) else {
            return Some(judged);
        };
        let Judged {
            due,
            event,
            reading,
        } = judged;
        let event = match event {
            Some(event) => self.offer_event(event, reading),
            None => None,
        };
        if event.is_some() {
            return Some(Judged {
                due,
                event,
                reading,
            });
        }
        self.dues.push_back_reserved(due);
        None
    }

    // Puts an event last, or gives it back.
    fn offer_event(&mut self, event: Event, reading: u64) -> Option<Event>
        requires { MayBeSubmitted (record { event = event; clock = reading }) }
        ensures put { IfNone result (self.new.batch ≡ self.old.batch ++ (record { event = event; clock = reading }) ∷ []) }
        ensures back { IfSome result (λ back. (back ≡ event) × (self.new.batch ≡ self.old.batch)) }
        ensures dues { self.new.dues ≡ self.old.dues }
    {
        let clock = reading;
        match self.batch.offer(Submission { event, clock }) {
            Some(Submission { event, clock: _ }) => Some(event),
            None => None,
        }
    }

    /// Answers all that wait, in order: their events are submitted together, as far as the hall takes them so, and each is acknowledged
    /// behind its entry. After a stop the replies before that of the first event without an entry are sent.
    pub(crate) fn answer<H: GroupHall, P: Port>(
        &mut self,
        alloc: Global,
        hall: &mut H,
        port: &mut P,
        reply: &mut FrameBuf,
    ) -> Result<(), LineEnd>
        requires ready { (H.seen hall.old).ready }
        requires dues { All (IsDueUnder (meaning (H.seen hall.old).text)) self.old.dues.items }
        ensures dues { OnOk result (All (IsDueUnder (meaning (H.seen hall.new).text)) self.new.dues.items) }
        ensures kept { IsKept (H.seen hall.old) (H.seen hall.new) }
        ensures answers { (name : List ℕ) (b : Summary) (h : List Entry) (bodies : List (List ℕ)) (asked later : List Asked) (first : H) (from : P) →
            IsHeld name b h bodies asked later self.old (changed (H.seen first) (H.seen hall.old) (P.seen from) (P.seen port.old)) →
            IsAnsweredOrEnded result name b h (bodies ++ bodies_in (asked ++ later)) later self.new
            (changed (H.seen first) (H.seen hall.new) (P.seen from) (P.seen port.new)) }
        ensures ends { IsCutShort result }
        ensures stop { HasShown (H.seen hall.new) (ending_of result) }
        ensures port { Answers (result ≡ Err LineEnd.WriteFault) (P.seen port.old) (P.seen port.new) }
    {
        self.send(hall, port, 0, reply)?;
        while self.batch.count() > 0 {
            self.answer_some(alloc, hall, port, reply)?;
        }
        Ok(())
    }

    // Submits the events that wait once, and sends the replies before that of the first one without an entry. A stop behind the last of
    // them has stopped none: the next call meets it.
    fn answer_some<H: GroupHall, P: Port>(
        &mut self,
        alloc: Global,
        hall: &mut H,
        port: &mut P,
        reply: &mut FrameBuf,
    ) -> Result<(), LineEnd>
        requires ready { (H.seen hall.old).ready }
        requires reached { IsReached 0 self.old.dues.items }
        requires some { 1 ≤ length self.old.batch }
        requires dues { All (IsDueUnder (meaning (H.seen hall.old).text)) self.old.dues.items }
        ensures dues { OnOk result (All (IsDueUnder (meaning (H.seen hall.new).text)) self.new.dues.items) }
        ensures kept { IsKept (H.seen hall.old) (H.seen hall.new) }
        ensures answers { (name : List ℕ) (b : Summary) (h : List Entry) (bodies : List (List ℕ)) (asked later : List Asked) (first : H) (from : P) →
            IsHeld name b h bodies asked later self.old (changed (H.seen first) (H.seen hall.old) (P.seen from) (P.seen port.old)) →
            IsHeldOrEnded result name b h (bodies ++ bodies_in (asked ++ later)) later self.new
            (changed (H.seen first) (H.seen hall.new) (P.seen from) (P.seen port.new)) }
        ensures reached { OnOk result (IsReached 0 self.new.dues.items) }
        ensures fewer { OnOk result (length self.new.batch < length self.old.batch) }
        ensures ends { IsCutShort result }
        ensures stop { HasShown (H.seen hall.new) (ending_of result) }
        ensures port { Answers (result ≡ Err LineEnd.WriteFault) (P.seen port.old) (P.seen port.new) }
    {
        let count = self.batch.count();
        let Grouped { done, stop } = hall.submit_all(alloc, &mut self.batch);
        let taken = done.count();
        self.send(hall, port, taken, reply)?;
        match stop {
            Some(stop) if taken < count => Err(LineEnd::Stopped(stop)),
            _ => Ok(()),
        }
    }

    // Sends what is due first, in order, until an acknowledgement comes behind so many.
    fn send<H: GroupHall, P: Port>(
        &mut self,
        hall: &H,
        port: &mut P,
        count: usize,
        reply: &mut FrameBuf,
    ) -> Result<(), LineEnd>
        requires ready { (H.seen hall.now).ready }
        requires dues { All (IsDueUnder (meaning (H.seen hall.now).text)) self.old.dues.items }
        ensures sends { SendsDues result (meaning (H.seen hall.now).text) count self.old.dues.items self.new.dues.items (P.seen port.old) (P.seen port.new) }
        ensures calls { self.new.batch ≡ self.old.batch }
        ensures ends { IfErr result (λ end. end ≡ LineEnd.WriteFault) }
    {
        let mut left = count;
        while let Some(due) = self.next_within(left) {
            if is_ack(&due) {
                left -= 1;
            }
            send_due(hall, port, &due, reply)?;
        }
        Ok(())
    }

    // Takes what is due first off, unless it is an acknowledgement and none is left.
    fn next_within(&mut self, left: usize) -> Option<Due>
        ensures some { IfSome result (λ due. (self.old.dues.items ≡ due ∷ self.new.dues.items) × (IsAckDue due → 1 ≤ left)) }
        ensures none { IfNone result ((self.new.dues ≡ self.old.dues) × IsReached left self.old.dues.items) }
        ensures calls { self.new.batch ≡ self.old.batch }
    {
        let first = self.dues.front()?;
        if left == 0 && is_ack(first) {
            return None;
        }
        self.dues.pop_front()
    }
}

// Whether it is an acknowledgement.
fn is_ack(due: &Due) -> bool
    ensures { IsTrue result ↔ IsAckDue due.now }
{
    matches!(due, Due::Ack { .. })
}

// Answers a frame that waits for no other.
fn answer_alone<H: GroupHall, P: Port>(
    alloc: Global,
    hall: &mut H,
    port: &mut P,
    judged: Judged,
    reply: &mut FrameBuf,
) -> Result<(), LineEnd>
    requires ready { (H.seen hall.old).ready }
    requires piece { MayBePut (meaning (H.seen hall.old).text) judged }
    ensures kept { IsKept (H.seen hall.old) (H.seen hall.new) }
    ensures answers { (name : List ℕ) (b : Summary) (h : List Entry) (bodies : List (List ℕ)) (a : Asked) (w : Waiting) (first : H) (from : P) →
        IsJudged name (meaning (H.seen hall.old).text) a.body a.reading judged →
        IsHeld name b h bodies [] (a ∷ []) w (changed (H.seen first) (H.seen hall.old) (P.seen from) (P.seen port.old)) →
        IsHeldOrEnded result name b h (bodies ++ a.body ∷ []) [] w (changed (H.seen first) (H.seen hall.new) (P.seen from) (P.seen port.new)) }
    ensures ends { IsCutShort result }
    ensures stop { HasShown (H.seen hall.new) (ending_of result) }
    ensures port { Answers (result ≡ Err LineEnd.WriteFault) (P.seen port.old) (P.seen port.new) }
{
    let Judged {
        due,
        event,
        reading,
    } = judged;
    match event {
        None => send_due(hall, port, &due, reply),
        Some(event) => {
            let header = header_in(due);
            let report = Report {
                event,
                header,
                reading,
            };
            submit_and_acknowledge(alloc, hall, port, report, reply)
        }
    }
}

// The header of an acknowledgement.
fn header_in(due: Due) -> Header
    requires { IsAckDue due }
    ensures { (reading : ℕ) × (due ≡ Due.Ack result reading) }
{
    match due {
        Due::Ack { header, .. } => header,
        _ => unreachable!(),
    }
}
