// Who holds an incident.
ghost use Rattle.centre_laws.specs.Holders.{HoldsApart};

use crate::numbers::law_numbers;

/// While an operator holds an incident, nobody claims it, and the operator claims no other one.
#[tactic(auto, using(crate::proofs::Holding::holds_apart))]
pub fn law_holder()
    ensures { HoldsApart }
{
    law_numbers();
}
