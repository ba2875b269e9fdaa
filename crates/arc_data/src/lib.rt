//! The plain data of the station, which several crates speak of: texts and byte lists, messages, signals, events,
//! replies and entries, steps and incidents, opening hours, and the faults of a setup text.
#![tactic(auto)]

mod acts;
mod blob;
mod event;
mod incident;
mod listing;
mod plan;
mod reply;
mod setup_fault;
mod signal;
mod step;
mod step_list;
mod txt;
mod window;

pub use acts::Acts;
pub use blob::{Blob, Memory};
pub use event::{CloseCode, Entry, Event, Message, Past, Token};
pub use incident::{Carried, Incident, Opened};
pub use listing::{Listing, Row, View};
pub use plan::{PlanWord, Planned};
pub use reply::Reply;
pub use setup_fault::{LineKind, SetupFault};
pub use signal::{Class, Kind, Signal, Signals};
pub use step::{Acted, Outcome, Step};
pub use step_list::StepList;
pub use txt::Txt;
pub use window::Window;
