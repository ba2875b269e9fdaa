// The store, over a disk.
ghost use Rattle.std.specs.Prelude.{◌≡◌, ◌≤◌, ◌↔◌, IsTrue};
ghost use Rattle.centre_store.specs.Stores.{HasFailed};

use crate::submit::has_risen;
use arc_io::Disk;
use centre_core::Centre;
use disk_journal::Journal;
use std::marker::Model;

/// A centre, and the journal that has its recorded events. Contracts see the centre's state, the journal, and the count of the disk's
/// faults at opening, and say for which histories the store stands.
pub struct Store<D: Disk> {
    pub(crate) centre: Centre,
    pub(crate) journal: Journal<D>,
    pub(crate) at_open: u64,
    // The bytes of the body that was written last: their room is used again.
    pub(crate) body: Vec<u8>,
}

// Written out: one call wherever one is dropped, where a derived drop is spelled out at each exit.
impl<D: Disk + Drop> Drop for Store<D> {
    fn drop(self) {
        let Store {
            centre,
            journal,
            at_open: _,
            body,
        } = self;
        drop(centre);
        drop(journal);
        drop(body);
    }
}

impl<D: Disk> Model for Store<D> {
    ghost use Rattle.centre_store.specs.Stores.{Stored, IsStored};

    ghost Value = { Stored D };

    ghost view = { λ s. record { state = s.centre; journal = s.journal; at_open = s.at_open } };

    ghost invariant = { λ s. IsStored D.seen (record { state = s.centre; journal = s.journal; at_open = s.at_open }) };
}

impl<D: Disk> Store<D> {
    /// The centre of all that was recorded.
    pub fn centre(&self) -> &Centre
        ensures { result.now ≡ self.now.state }
    {
        &self.centre
    }

    /// The count of the disk's faults at the opening, which is no less now.
    pub fn at_open(&self) -> u64
        ensures count { result ≡ self.now.at_open }
        ensures later { self.now.at_open ≤ (D.seen self.now.journal.disk).faults }
    {
        self.at_open
    }

    /// The counts of the disk's faults at the opening and now. It takes no memory.
    pub fn counts(&self) -> (u64, u64)
        ensures at_open { result.0 ≡ self.now.at_open }
        ensures now { result.1 ≡ (D.seen self.now.journal.disk).faults }
        ensures later { result.0 ≤ result.1 }
    {
        (self.at_open, self.journal.disk().faults())
    }

    /// Whether the disk has failed since the opening.
    pub fn has_failed(&self) -> bool
        ensures { IsTrue result ↔ HasFailed D.seen self.now }
    {
        has_risen(self.at_open, self.journal.disk().faults())
    }

    /// Gives the disk back.
    pub fn close(self) -> D
        ensures { result ≡ self.journal.disk }
    {
        let Store {
            centre,
            journal,
            at_open: _,
            body,
        } = self;
        drop(centre);
        drop(body);
        journal.close()
    }
}
