// What is watched.
use crate::queue::Queue;

/// The open incidents as the last list said, how many there are, the seconds of the sitting, for how many seconds the bell has not rung
/// (up to 20), and for how many more it is silenced.
#[derive(Drop)]
pub struct Watch {
    pub queue: Queue,
    pub total: u64,
    pub clock: u64,
    pub quiet: u8,
    pub muted: u8,
}
