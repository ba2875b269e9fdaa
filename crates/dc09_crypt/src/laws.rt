// What holds of every acknowledgement.
ghost use Rattle.dc09_crypt.specs.Sealed.{AcksOpenAgain};

/// The digits of an acknowledgement open, under the key that sealed it, to a rest that is the closing bracket and to the
/// moment of its stamp.
pub fn law_acks_open_again()
    ensures { AcksOpenAgain }
{}
