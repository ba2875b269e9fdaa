// The answers to operators, and to an Adopt.
ghost use Rattle.std.specs.Prelude.{◌≡◌, ℕ, List, []};
ghost use Rattle.arc_data.specs.declared.event.CloseCode.{CloseCode};
ghost use Rattle.arc_data.specs.declared.event.Event.TheVariants.{Adopt, Claim, Next, Act as Do, Release, Close};
ghost use Rattle.centre_rules.specs.Answers.{answer_over, knows_operator, if_known};
ghost use Rattle.centre_rules.specs.Marks.{force};
ghost use Rattle.centre_rules.specs.Summary.{Summary};
ghost use Rattle.centre_core.specs.Kept.{IsSetupOf};

use crate::centre::Centre;
use arc_data::{Acted, Reply, Txt};
use known_accounts::WatchedSetup;
use open_incidents::orders;

impl Centre {
    /// The answer to a claim.
    pub(crate) fn on_claim(&self, operator: &Txt, number: u64, at: u64) -> Reply
        ensures { result ≡ answer_over self.now.sum [] (Claim operator.now number) at }
    {
        let reply = orders::claim(&self.queued, operator, number, at, self.lapse());
        if_known(self.knows_operator(operator), reply)
    }

    /// The answer to an operator who asks for the next incident.
    pub(crate) fn on_next(&self, operator: &Txt, at: u64) -> Reply
        ensures { result ≡ answer_over self.now.sum [] (Next operator.now) at }
    {
        let reply = orders::next(&self.queued, operator, at, self.lapse());
        if_known(self.knows_operator(operator), reply)
    }

    /// The answer to a step that is carried out.
    pub(crate) fn on_act(&self, acted: Acted, number: u64) -> Reply
        ensures { result ≡ answer_over self.now.sum [] (Do acted.operator number acted.step acted.outcome) acted.at }
    {
        let operator = acted.operator;
        let reply = orders::act(self.queued.table(), acted, number, self.lapse());
        if_known(self.knows_operator(&operator), reply)
    }

    /// The answer to a release.
    pub(crate) fn on_release(&self, operator: &Txt, number: u64, at: u64) -> Reply
        ensures { result ≡ answer_over self.now.sum [] (Release operator.now number) at }
    {
        let reply = orders::release(self.queued.table(), operator, number, at, self.lapse());
        if_known(self.knows_operator(operator), reply)
    }

    /// The answer to a closing.
    pub(crate) fn on_close(&self, operator: &Txt, number: u64, at: u64) -> Reply
        ensures { (code : CloseCode) → result ≡ answer_over self.now.sum [] (Close operator.now number code) at }
    {
        let reply = orders::close(self.queued.table(), operator, number, at, self.lapse());
        if_known(self.knows_operator(operator), reply)
    }

    // Whether the setup in force has an operator.
    fn knows_operator(&self, name: &Txt) -> bool
        ensures { result ≡ knows_operator (force self.now.sum []) name.now }
    {
        match self.accounts.setup() {
            None => false,
            Some(setup) => setup.operator(name).is_some(),
        }
    }
}

/// The answer to an Adopt, of whose text this is the setup, where it is one.
pub(crate) fn on_adopt(setup: &Option<WatchedSetup>) -> Reply
    ensures { (s : Summary) (text : List ℕ) (at : ℕ) → IsSetupOf text setup.now → result ≡ answer_over s [] (Adopt text) at }
{
    if setup.is_some() {
        Reply::Adopted
    } else {
        Reply::Unknown
    }
}

/// A reply, or Unknown where what it is about is lacking.
pub(crate) fn if_known(known: bool, reply: Reply) -> Reply
    ensures { result ≡ if_known known reply }
{
    if known { reply } else { Reply::Unknown }
}
