// The numbers of open incidents.
ghost use Rattle.centre_laws.specs.Numbers.{NumbersRise};

/// The open incidents of a history stand in order of number, and no number is greater than how many were opened.
#[tactic(auto, using(crate::proofs::Numbering::rise))]
pub fn law_numbers()
    ensures { NumbersRise }
{}
