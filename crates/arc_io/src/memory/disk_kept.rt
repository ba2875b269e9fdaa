// The calls that a disk in memory keeps, and how a stop fills what was not synced.
use crate::Area;

/// What a stop leaves of the bytes that were not yet synced.
#[derive(Clone, Copy, Debug, PartialEq, Eq)]
pub enum Fill {
    /// Nothing of them.
    Old,
    /// All of them.
    New,
    /// This byte at each of their places, at the greatest length.
    Torn(u8),
}

// What a call did to an area.
#[derive(Drop)]
pub enum Deed {
    Write { at: u64, bytes: Vec<u8> },
    Sync,
}

// A call that did something, with its number.
#[derive(Drop)]
pub struct Kept {
    pub call: u64,
    pub area: Area,
    pub deed: Deed,
}
