// What an operator has to do for an incident, and what came of it.
ghost use Rattle.std.specs.Prelude.{◌≡◌};
ghost use Rattle.arc_data.specs.Steps.{step_place};

use crate::Txt;

/// A step of an incident. The keyholders of an account are numbered from 1 to 4.
#[derive(Clone, Copy, Debug)]
pub enum Step {
    /// Call the premises.
    Premises,
    /// Call the keyholder of this number.
    Holder(u8),
    Police,
    Fire,
    Ambulance,
    Guard,
    /// Write a note.
    Note,
}

impl PartialEq for Step {
    ghost use Rattle.arc_data.specs.Steps.{same_step, same_step_equiv};
    ghost use Rattle.std.specs.Cmp.{partial_equiv_from_equiv};

    ghost eq = { same_step };

    ghost laws = { partial_equiv_from_equiv same_step_equiv };

    fn eq(&self, other: &Step) -> bool {
        self.place() == other.place()
    }
}

impl Eq for Step {
    ghost use Rattle.arc_data.specs.Steps.{same_step_equiv};

    ghost laws = { same_step_equiv };
}

impl Step {
    // A number of its own for each step.
    fn place(self) -> u16
        ensures { result ≡ step_place self }
    {
        match self {
            Step::Premises => 0,
            Step::Police => 1,
            Step::Fire => 2,
            Step::Ambulance => 3,
            Step::Guard => 4,
            Step::Note => 5,
            Step::Holder(number) => u16::from(number) + 6,
        }
    }
}

/// What came of a step. Calls are recorded as reached or unanswered, all other steps as done.
#[derive(Clone, Copy, Debug, PartialEq, Eq)]
pub enum Outcome {
    Reached,
    NoAnswer,
    Done,
}

/// A recorded step: what came of it, at which moment (in seconds since 1970, GMT), and by whom.
#[derive(Clone, Copy, Debug, PartialEq, Eq)]
pub struct Acted {
    pub step: Step,
    pub outcome: Outcome,
    pub at: u64,
    pub operator: Txt,
}
