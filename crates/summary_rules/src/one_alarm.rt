// The bytes of a summary, written out by hand.
ghost use Rattle.summary_rules.specs.OneAlarm.{IsWritten};

/// The summary of a station in which one burglary was reported has these 156 bytes, and in version 1 these 151.
#[tactic(auto, using(crate::proofs::Written::written))]
pub fn law_one_alarm_is_written()
    ensures { IsWritten }
{}
