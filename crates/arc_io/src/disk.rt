// A disk of two areas: its calls, and what a crash at any moment may leave.
ghost use Rattle.std.specs.Prelude.{◌≡◌, ◌≤◌, ◌<◌, ◌+◌, ◌^◌, ℕ, length, OnOk, IfOk, IfSome, None};
ghost use Rattle.std.specs.Io.{ReadsAtMost};
ghost use Rattle.arc_io.specs.Areas.{Areas, part};
ghost use Rattle.arc_io.specs.Crashes.{Becomes, IsReadInPart, IsAfterWrite, TornIn, Follows, OnlyIn, Elapses};
ghost use Rattle.arc_io.specs.Causes.{IsCounted};
ghost use Rattle.arc_io.specs.Disks.{DiskSeen};

use crate::Failed;

/// One of the two areas.
#[derive(Clone, Copy, Debug, PartialEq, Eq)]
pub enum Area {
    A,
    B,
}

/// Two areas of bytes, each with a length that only writes change.
pub trait Disk {
    /// What it tells at a moment.
    ghost seen: { Self → DiskSeen };

    /// How many bytes the area has.
    fn length(&mut self, area: Area) -> Result<u64, Failed>
        ensures bytes { IfOk result (λ n. IfSome (seen self.old).told (λ s. n ≡ length (part area s))) }
        ensures told { (seen self.new).told ≡ (seen self.old).told }
        ensures crash { (c : Areas) → (seen self.new).may_leave c → (seen self.old).may_leave c }
        ensures time { Elapses (seen self.old) (seen self.new) }
        ensures cause { IsCounted (seen self.old).faults (seen self.new).faults result };

    /// Gives the bytes from the place on, up to the buffer's length. A byte below the area's length that it doesn't give counts as 00; a
    /// disk in memory and one of files give all.
    fn read_at(&mut self, area: Area, at: u64, buf: &mut [u8]) -> Result<usize, Failed>
        ensures bound { ReadsAtMost result buf.new }
        ensures bytes { IfOk result (λ n. IfSome (seen self.old).told (λ s. IsReadInPart (part area s) at n buf.new)) }
        ensures told { (seen self.new).told ≡ (seen self.old).told }
        ensures crash { (c : Areas) → (seen self.new).may_leave c → (seen self.old).may_leave c }
        ensures time { Elapses (seen self.old) (seen self.new) }
        ensures cause { IsCounted (seen self.old).faults (seen self.new).faults result };

    /// Puts the bytes at the place. Until the area is synced, a crash may leave any bytes in that range and past the old end.
    fn write_at(&mut self, area: Area, at: u64, bytes: &[u8]) -> Result<(), Failed>
        requires place { IfSome (seen self.old).told (λ s. at ≤ length (part area s)) }
        requires fits { at + length bytes.now < 2 ^ 63 }
        ensures written { Becomes (seen self.old).told (seen self.new).told (IsAfterWrite result area at bytes.now) }
        ensures crash { Follows (TornIn area at (length bytes.now)) (seen self.old).may_leave (seen self.new).may_leave }
        ensures time { Elapses (seen self.old) (seen self.new) }
        ensures cause { IsCounted (seen self.old).faults (seen self.new).faults result };

    /// Puts on the disk what was written to the area: afterwards a crash leaves there what a read gives.
    fn sync(&mut self, area: Area) -> Result<(), Failed>
        ensures durable { OnOk result (IfSome (seen self.old).told (λ s. OnlyIn area s (seen self.new).may_leave)) }
        ensures told { (seen self.new).told ≡ (seen self.old).told }
        ensures crash { (c : Areas) → (seen self.new).may_leave c → (seen self.old).may_leave c }
        ensures time { Elapses (seen self.old) (seen self.new) }
        ensures cause { IsCounted (seen self.old).faults (seen self.new).faults result };

    /// How often a call has failed. It stays over a call that answers Ok, and stands still at the last value of `u64`.
    fn faults(&self) -> u64
        ensures { result ≡ (seen self.now).faults };

    /// Of a disk that tells nothing no crash is known.
    ghost silent: { (d : Self) (c : Areas) → (seen d).told ≡ None → (seen d).may_leave c → ⊥ };

    /// This moment is one of those since an earlier one.
    ghost counts_now: { (d : Self) (t : ℕ) (c : Areas) → t ≤ (seen d).moment → (seen d).may_leave c → (seen d).left_since t c };

    /// Since this moment there is no other.
    ghost only_now: { (d : Self) (c : Areas) → (seen d).left_since (seen d).moment c → (seen d).may_leave c };
}
