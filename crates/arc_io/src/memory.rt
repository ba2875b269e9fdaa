//! The forms in memory. They tell all that they give and take.
ghost use Rattle.std.specs.Prelude.{◌↔◌, IsTrue, Contains};

mod clock;
mod disk;
mod disk_kept;
mod disk_stop;
mod noise;
mod port;
mod sink;
mod source;
mod wild;

pub use clock::ListClock;
pub use disk::MemDisk;
pub use disk_kept::Fill;
pub use noise::ListNoise;
pub use port::MemPort;
pub use sink::MemSink;
pub use source::MemSource;
pub use wild::WildDisk;

// The call of this number is one of those that are to fail.
fn is_listed(failing: &[u64], number: u64) -> bool
    ensures { IsTrue result ↔ Contains failing.now number }
{
    failing.contains(&number)
}
