// What comes of closing a gate at which events were submitted together.
use arc_io::Disk;
use centre_store::Store;

/// What comes of closing a gate with groups: the store, or where its disk has failed since the opening, that alone, with the counts of its
/// faults at the opening and now. What such a store has in memory may be ahead of the disk: it is let go.
#[derive(Drop)]
pub enum GroupClosed<D: Disk> {
    Whole(Store<D>),
    Broken { disk: D, at_open: u64, now: u64 },
}
