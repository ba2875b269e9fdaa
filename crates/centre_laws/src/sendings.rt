// Sendings: panels send again, and acknowledgements are lost.
ghost use Rattle.centre_laws.specs.Sendings.{EachSendingCountsOnce};

use crate::repeats::law_repeats;

/// Without crashes each sending counts exactly once, however often it is delivered.
pub fn law_once()
    ensures { EachSendingCountsOnce }
{
    law_repeats();
}
