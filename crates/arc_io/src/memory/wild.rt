// A disk whose reads and lengths are lists.
ghost use Rattle.std.specs.Prelude.{◌≡◌, [], slice_index_or};

use crate::{Area, Disk, Failed};
use arc_data::Blob;

/// A disk that nothing holds together: what it reads and the lengths that it says are lists that its maker hands in, whatever is asked
/// for, and what is written to it is kept nowhere. Each read gives the next byte string, as much of it as there is room for, and none
/// behind the end of that list; each length is the next one, and 0 behind the end of that list. No call fails. It tells nothing of its
/// content, so that all that is said of a journal or a store over any disk is to hold of it too.
pub struct WildDisk {
    reads: Vec<Blob>,
    lengths: Vec<u64>,
    read: usize,
    measured: usize,
}

// Written out: one call wherever one is dropped, where a derived drop is spelled out at each exit.
impl Drop for WildDisk {
    fn drop(self) {
        let WildDisk {
            reads,
            lengths,
            read: _,
            measured: _,
        } = self;
        drop(reads);
        drop(lengths);
    }
}

impl WildDisk {
    ghost use Rattle.arc_io.specs.Wild.{wild_reads, wild_lengths, reads_given, lengths_given};

    /// A disk whose reads give these byte strings, one after the other, and whose lengths are these.
    pub fn new(reads: Vec<Blob>, lengths: Vec<u64>) -> WildDisk
        ensures reads { wild_reads result ≡ reads.items }
        ensures lengths { wild_lengths result ≡ lengths.items }
        ensures given { (reads_given result ≡ 0) × (lengths_given result ≡ 0) }
    {
        WildDisk {
            reads,
            lengths,
            read: 0,
            measured: 0,
        }
    }
}

// The byte string at the place, nothing behind the end of the list.
fn bytes_at(reads: &[Blob], at: usize) -> &[u8]
    ensures { result.now ≡ slice_index_or reads.now at [] }
{
    match reads.get(at) {
        Some(bytes) => bytes.bytes(),
        None => &[],
    }
}

impl Disk for WildDisk {
    ghost use Rattle.std.specs.Prelude.{IsOk};
    ghost use Rattle.std.specs.Io.{ReadsAtMost};
    ghost use Rattle.arc_io.specs.Disks.{silent_seen};
    ghost use Rattle.arc_io.specs.Wild.{WildRead, WildLength};

    ghost seen = { λ _. silent_seen 0 };

    ghost silent = { λ _ _ _ none. none };

    ghost counts_now = { λ _ _ _ _ none. none };

    ghost only_now = { λ _ _ none. none };

    fn length(&mut self, _area: Area) -> Result<u64, Failed>
        ensures exact { WildLength self.old self.new result }
    {
        let length = self.lengths.get(self.measured).copied().unwrap_or(0);
        self.measured = self.measured.saturating_add(1);
        Ok(length)
    }

    fn read_at(&mut self, _area: Area, _at: u64, buf: &mut [u8]) -> Result<usize, Failed>
        ensures bound { ReadsAtMost result buf.new }
        ensures exact { WildRead self.old self.new result buf.old buf.new }
    {
        let bytes = bytes_at(&self.reads, self.read);
        let count = bytes.len().min(buf.len());
        buf[..count].copy_from_slice(&bytes[..count]);
        self.read = self.read.saturating_add(1);
        Ok(count)
    }

    fn write_at(&mut self, _area: Area, _at: u64, _bytes: &[u8]) -> Result<(), Failed>
        ensures exact { IsOk result × (self.new ≡ self.old) }
    {
        Ok(())
    }

    fn sync(&mut self, _area: Area) -> Result<(), Failed>
        ensures exact { IsOk result × (self.new ≡ self.old) }
    {
        Ok(())
    }

    fn faults(&self) -> u64
        ensures { result ≡ 0 }
    {
        0
    }
}
