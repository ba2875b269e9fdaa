// The plan of an account for a class.
ghost use Rattle.std.specs.Prelude.{◌≡◌, ◌≤◌, ◌+◌, ◌++◌, ◌∷◌, [], length, not, if◌then◌else◌};
ghost use Rattle.arc_data.specs.Words.{has_word};
ghost use Rattle.alarm_rules.specs.Plans.{is_counted, steps_in, steps_of_word, calls_of_holders};

use arc_data::{PlanWord, Planned, Step, StepList};
use std::marker::Model;

/// The words of a plan line in their order, each with or without its mark `@closed`, and none twice. Contracts see them as a
/// list. It takes no memory.
#[derive(Drop)]
pub struct Plan {
    words: [Planned; 7],
    len: usize,
}

impl Model for Plan {
    ghost use Rattle.std.specs.Prelude.{List, take, length, ◌≡◌};
    ghost use Rattle.arc_data.specs.declared.plan.Planned.{Planned};
    ghost use Rattle.action_plans.specs.Plans.{IsPlan};

    ghost Value = { List Planned };

    ghost view = { λ p. take p.len p.words };

    ghost invariant = { λ p. IsPlan p.len p.words };
}

impl Plan {
    /// A plan without words.
    pub fn new() -> Plan
        ensures { result ≡ [] }
    {
        let unused = Planned {
            word: PlanWord::Note,
            closed: false,
        };
        Plan {
            words: [unused; 7],
            len: 0,
        }
    }

    /// Puts the word last. False exactly where the word stands already, with or without its mark, and then nothing changes.
    pub fn add(&mut self, word: PlanWord, closed: bool) -> bool
        ensures fresh { result ≡ not (has_word word self.old) }
        ensures added { self.new ≡ (if result then self.old ++ record { word = word; closed = closed } ∷ [] else self.old) }
    {
        if has(&self.words[..self.len], word) {
            return false;
        }
        self.words[self.len] = Planned { word, closed };
        self.len += 1;
        true
    }

    /// A copy. Takes no memory.
    pub fn copy(&self) -> Plan
        ensures { result ≡ self.now }
    {
        Plan {
            words: self.words,
            len: self.len,
        }
    }

    /// The steps of an incident that opens in or outside open hours, at an account with so many keyholders, at most 4: of
    /// each word that counts its steps, in order. A word with its mark counts only outside open hours.
    #[tactic(auto, unfolding(alarm_rules::specs::Plans::steps_in))]
    pub fn steps(&self, in_hours: bool, holders: u8) -> StepList
        requires { holders ≤ 4 }
        ensures { result ≡ steps_in in_hours holders self.now }
    {
        let mut steps = StepList::new();
        for planned in &self.words[..self.len] {
            if counts(planned, in_hours) {
                add_steps(&mut steps, planned.word, holders);
            }
        }
        steps
    }
}

// Whether a word counts in or outside open hours.
fn counts(planned: &Planned, in_hours: bool) -> bool
    ensures { result ≡ is_counted in_hours planned.now }
{
    !(planned.closed && in_hours)
}

// Puts the steps of a word last.
fn add_steps(steps: &mut StepList, word: PlanWord, holders: u8)
    requires { length steps.old + length (steps_of_word holders word) ≤ 10 }
    ensures { steps.new ≡ steps.old ++ steps_of_word holders word }
{
    let step = match word {
        PlanWord::Premises => Step::Premises,
        PlanWord::Holders => return add_calls(steps, holders),
        PlanWord::Police => Step::Police,
        PlanWord::Fire => Step::Fire,
        PlanWord::Ambulance => Step::Ambulance,
        PlanWord::Guard => Step::Guard,
        PlanWord::Note => Step::Note,
    };
    let _ = steps.push(step);
}

// Puts a call of each keyholder last.
fn add_calls(steps: &mut StepList, holders: u8)
    requires { length steps.old + holders ≤ 10 }
    ensures { steps.new ≡ steps.old ++ calls_of_holders holders }
{
    for number in 0..holders {
        let _ = steps.push(Step::Holder(number + 1));
    }
}

// Whether the word is among these.
fn has(words: &[Planned], word: PlanWord) -> bool
    ensures { result ≡ has_word word words.now }
{
    words.iter().any(|planned| planned.word == word)
}
