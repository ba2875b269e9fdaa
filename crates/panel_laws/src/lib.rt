//! Laws of a panel and a centre: what holds of both together, whatever the network between them does. A law is a function without
//! parameters, and its contract says the law.
#![tactic(auto)]

ghost use Rattle.panel_laws.specs.Orders.{PanelsStandInOrder};
ghost use Rattle.panel_laws.specs.Readings.{FramesAreRead, FramesAreSent};
ghost use Rattle.panel_laws.specs.Samples.{SomeAreAnswered};

use centre_laws::law_restart;
use dc09_frame::law_spelled_is_read;
use dc09_message::law_written_content_is_read;

/// A panel sends its events, a network loses, repeats, delays and reorders frames and replies, and the centre crashes and
/// starts again: what the centre records of the panel stands in the order of the panel's events, none twice, and each event
/// that was acknowledged exactly once. It is not promised that an event is ever acknowledged.
#[tactic(auto, using(crate::proofs::Worlds::in_order, crate::proofs::Worlds::frames_sent, crate::proofs::Sample::some_are))]
pub fn law_panel()
    ensures order { PanelsStandInOrder }
    ensures sent { FramesAreSent }
    ensures read { FramesAreRead }
    ensures some { SomeAreAnswered }
{
    law_restart();
    law_spelled_is_read();
    law_written_content_is_read();
}
