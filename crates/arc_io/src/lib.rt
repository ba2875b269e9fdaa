//! What the station reads, writes, and asks the time and the noise of: the traits of the outside, their forms in memory, and the adapters over the machine.
#![tactic(auto)]

mod adapters;
mod count;
mod disk;
mod disk_synced;
mod memory;
mod refusal;
mod traits;
mod whole;

pub use adapters::{FileDisk, FileSource, RealClock, RealNoise, RefusalLines, StdPort};
pub use disk::{Area, Disk};
pub use disk_synced::write_synced;
pub use memory::{Fill, ListClock, ListNoise, MemDisk, MemPort, MemSink, MemSource, WildDisk};
pub use refusal::Refusal;
pub use traits::{Clock, Ends, Failed, Noise, Port, Sink, Source};
pub use whole::{ReadEnd, put, read_all};
