// Restarts: the centre crashes at any point of a schedule and starts again.
ghost use Rattle.centre_laws.specs.Sendings.{RestartsLoseNothing};

use crate::repeats::law_repeats;

/// With crashes, too, no sending counts twice, and one that was acknowledged counts exactly once.
pub fn law_restart()
    ensures { RestartsLoseNothing }
{
    law_repeats();
}
