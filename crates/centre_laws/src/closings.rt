// When an incident is closed.
ghost use Rattle.centre_laws.specs.Closings.{ClosesDone};

use crate::numbers::law_numbers;

/// An incident is closed only after acts on it that meet each step that it had at its opening.
#[tactic(auto, using(crate::proofs::Closing::closes_done))]
pub fn law_closing()
    ensures { ClosesDone }
{
    law_numbers();
}
