// What a centre works out for an event: its reply, and the signals that it carries.
ghost use Rattle.std.specs.Prelude.{◌≡◌, [], ℕ, true, IfOk};
ghost use Rattle.arc_data.specs.declared.event.Event.TheVariants.{Message as Sent, Beat, Tick};
ghost use Rattle.centre_rules.specs.Answers.{answer_over};
ghost use Rattle.centre_rules.specs.History.{IsMoment, is_recorded};
ghost use Rattle.centre_core.specs.Kept.{IsAdopted, IsWorked, IsPlain};
ghost use Rattle.centre_core.specs.Taken.{IsFoundFor};

use crate::carrying::{found, raise, signals_sent};
use crate::centre::Centre;
use crate::orders::{if_known, on_adopt};
use arc_data::{Acted, Carried, Event, Memory, Message, Reply, Txt};
use known_accounts::{FoundAccount, WatchedSetup};
use open_incidents::listing::list;
use open_incidents::orders::show;
use std::alloc::Global;

// Of all events but messages and heartbeats no account is looked up.
const NOT_FOUND: FoundAccount = FoundAccount {
    row: None,
    setup: None,
};

/// The reply to an event, and where it is recorded, the signals that it carries, and where the account of a message or a heartbeat
/// stands.
#[derive(Drop)]
pub(crate) struct Worked {
    pub reply: Reply,
    pub carried: Vec<Carried>,
    pub found: FoundAccount,
}

impl Centre {
    // Works out the answer to an event at a moment. The setup is that of an Adopt's text, where it is one. The error is want
    // of memory.
    pub(crate) fn work_out(
        &self,
        alloc: Global,
        event: &Event,
        setup: &Option<WatchedSetup>,
        at: u64,
    ) -> Result<Worked, Memory>
        requires adopted { IsAdopted event.now setup.now }
        requires moment { IsMoment at }
        ensures worked { IfOk result (λ w. IsWorked self.now.sum event.now at w.reply w.carried.items) }
        ensures found { IfOk result (λ w. is_recorded w.reply ≡ true → IsFoundFor event.now w.found self.now.sum.text self.now.sum.rows) }
    {
        match event {
            Event::Message { message, via } => self.on_message(alloc, message, via, at),
            Event::Beat { account } => Ok(self.on_beat(alloc, account)),
            Event::Tick => self.on_tick(alloc, at),
            _ => {
                let reply = self.reply(alloc, event, setup, at)?;
                Ok(alone(alloc, reply))
            }
        }
    }

    // The answer to a message that came by a line, and its signals where it is taken.
    fn on_message(
        &self,
        alloc: Global,
        message: &Message,
        via: &Txt,
        at: u64,
    ) -> Result<Worked, Memory>
        requires { IsMoment at }
        ensures worked { IfOk result (λ w. IsWorked self.now.sum (Sent message.now via.now) at w.reply w.carried.items) }
        ensures found { IfOk result (λ w. is_recorded w.reply ≡ true → IsFoundFor (Sent message.now via.now) w.found self.now.sum.text self.now.sum.rows) }
    {
        let Some(setup) = self.accounts.setup() else {
            return Ok(alone(alloc, Reply::Unknown));
        };
        let place = found(setup, &message.account);
        if place.is_none() {
            return Ok(alone(alloc, Reply::Unknown));
        }
        let content = message.content.bytes();
        let Some(signals) = content_signals::signals(message.token, content) else {
            return Ok(alone(alloc, Reply::Unknown));
        };
        let rows = self.accounts.rows();
        let row = rows.row_of(&message.account);
        if let Some(first) = rows.repeat_at(row, message, at) {
            return Ok(alone(alloc, Reply::Repeat { first }));
        }
        let carried = signals_sent(alloc, setup, &message.account, via, place, at, &signals)?;
        Ok(Worked {
            reply: Reply::Taken,
            carried,
            found: FoundAccount { row, setup: place },
        })
    }

    // The answer to a heartbeat, whose account is looked up here and nowhere else.
    fn on_beat(&self, alloc: Global, account: &Txt) -> Worked
        ensures worked { (at : ℕ) → IsWorked self.now.sum (Beat account.now) at result.reply result.carried.items }
        ensures found { IsFoundFor (Beat account.now) result.found self.now.sum.text self.now.sum.rows }
    {
        let found = self.accounts.find(account);
        Worked {
            reply: if_known(found.setup.is_some(), Reply::Heard),
            carried: Vec::new(alloc),
            found,
        }
    }

    // The answer to a Tick, and the signals that it raises.
    fn on_tick(&self, alloc: Global, at: u64) -> Result<Worked, Memory>
        requires { IsMoment at }
        ensures { IfOk result (λ w. IsWorked self.now.sum Tick at w.reply w.carried.items) }
    {
        let carried = match self.accounts.setup() {
            None => Vec::new(alloc),
            Some(setup) => raise(alloc, setup, &self.accounts, at)?,
        };
        let count = carried.len() as u64;
        Ok(Worked {
            reply: Reply::Raised { count },
            carried,
            found: NOT_FOUND,
        })
    }

    // The answer to an event that carries no signals.
    fn reply(
        &self,
        alloc: Global,
        event: &Event,
        setup: &Option<WatchedSetup>,
        at: u64,
    ) -> Result<Reply, Memory>
        requires adopted { IsAdopted event.now setup.now }
        ensures { IfOk result (λ r. IsPlain event.now → r ≡ answer_over self.now.sum [] event.now at) }
    {
        match event {
            Event::Adopt { .. } => Ok(on_adopt(setup)),
            Event::Start => Ok(Reply::Started),
            Event::Claim { operator, number } => Ok(self.on_claim(operator, *number, at)),
            Event::Next { operator } => Ok(self.on_next(operator, at)),
            Event::Act {
                operator,
                number,
                step,
                outcome,
            } => {
                let acted = Acted {
                    step: *step,
                    outcome: *outcome,
                    at,
                    operator: *operator,
                };
                Ok(self.on_act(acted, *number))
            }
            Event::Release { operator, number } => Ok(self.on_release(operator, *number, at)),
            Event::Close {
                operator,
                number,
                ..
            } => Ok(self.on_close(operator, *number, at)),
            Event::Show { number } => Ok(show(self.queued.table(), *number, at, self.lapse())),
            Event::List => list(alloc, self.queued.table(), at, self.lapse()),
            Event::Message { .. } | Event::Beat { .. } | Event::Tick => Ok(Reply::Unknown),
        }
    }
}

// A reply without signals.
fn alone(alloc: Global, reply: Reply) -> Worked
    ensures reply { result.reply ≡ reply }
    ensures carried { result.carried.items ≡ [] }
{
    Worked {
        reply,
        carried: Vec::new(alloc),
        found: NOT_FOUND,
    }
}
