// A write and a sync as one step.
ghost use Rattle.std.specs.Prelude.{◌≡◌, ◌≤◌, ◌<◌, ◌+◌, ◌^◌, length, OnOk, IfSome};
ghost use Rattle.arc_io.specs.Areas.{part};
ghost use Rattle.arc_io.specs.Crashes.{Becomes, IsWritten, Torn, TornIn, Follows, OnlyIn, LeavesTorn};
ghost use Rattle.arc_io.specs.Causes.{IsCounted};

use crate::{Area, Disk, Failed};

/// Writes bytes, and has them on the disk. Until then a crash may leave any bytes in their place.
pub fn write_synced<D: Disk>(disk: &mut D, area: Area, at: u64, bytes: &[u8]) -> Result<(), Failed>
    requires place { IfSome (D.seen disk.old).told (λ s. at ≤ length (part area s)) }
    requires fits { at + length bytes.now < 2 ^ 63 }
    ensures written { OnOk result (Becomes (D.seen disk.old).told (D.seen disk.new).told (IsWritten area at bytes.now)) }
    ensures torn { Becomes (D.seen disk.old).told (D.seen disk.new).told (TornIn area at (length bytes.now)) }
    ensures durable { OnOk result (IfSome (D.seen disk.new).told (λ s. OnlyIn area s (D.seen disk.new).may_leave)) }
    ensures crash { Follows (TornIn area at (length bytes.now)) (D.seen disk.old).may_leave (D.seen disk.new).may_leave }
    ensures any_moment { LeavesTorn (D.seen disk.old) (D.seen disk.new) area at (length bytes.now) }
    ensures cause { IsCounted (D.seen disk.old).faults (D.seen disk.new).faults result }
{
    disk.write_at(area, at, bytes)?;
    disk.sync(area)
}
