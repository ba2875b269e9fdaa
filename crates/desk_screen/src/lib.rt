//! A screen at which an operator works the desk: what each key, each answer, each second and each connection makes of it. It has no
//! handles: a program connects it.
#![tactic(auto)]

mod asking;
mod deed;
mod keyboard;
mod keying;
mod masking;
mod order;
mod own;
mod owning;
mod plain;
mod queue;
mod reaction;
mod screen;
mod sending;
mod serial;
mod series;
mod session;
mod watch;
mod watching;

pub use arc_data::{Class, CloseCode, Outcome, Row, Step, Txt, View};
pub use deed::Deed;
pub use desk_wire::Command;
pub use keyboard::Keyboard;
pub use order::{Order, Poll};
pub use own::{Due, Own};
pub use plain::{Plain, front_of, plain_byte};
pub use queue::{Queue, Waiting};
pub use reaction::Reaction;
pub use screen::Screen;
pub use series::{Kind, Series};
pub use session::Session;
pub use watch::Watch;
