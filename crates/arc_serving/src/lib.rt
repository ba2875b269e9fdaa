//! Many workers and a ticker beside each other over one store, in threads, from a store to a store.
#![tactic(auto)]

mod bench;
mod beside;
mod closing;
mod job;
mod laws;
mod link;
mod serving;
mod session;
mod side;
mod station;
mod station_gate;
mod ticking;
mod working;

pub use laws::law_one_caller;
pub use serving::{gather_store, serve_store};
pub use session::{SessionEnd, serve};
pub use side::Side;
pub use station::{Came, Crew, GatheredStore, ServedStore, Station};
pub use station_gate::{SingleGate, StationGate};
pub use ticking::{Ticked, ticker};
pub use working::{Worked, WorkerEnd, worker};
