// How a summary gets into the area that isn't chosen, and is chosen from then on.
ghost use Rattle.std.specs.Prelude.{◌≡◌, ◌⊎◌, ◌≤◌, ◌<◌, ◌+◌, ◌^◌, [], ◌∷◌, ℕ, List, Option, Some, length, OnOk, IfOk, IfSome};
ghost use Rattle.std.specs.Int.{to_be_bytes, w32};
ghost use Rattle.arc_io.specs.Areas.{part};
ghost use Rattle.arc_io.specs.Causes.{IsCounted};
ghost use Rattle.arc_io.specs.Crashes.{Becomes, IsQuiet, IsWritten, LeavesOnly, OnlyIn};
ghost use Rattle.disk_journal.specs.Journal.{HasBodies, IsSettled, Keeps};
ghost use Rattle.disk_journal.specs.OtherArea.{IsSameBeside};
ghost use Rattle.disk_journal.specs.Standing.{other_of, generation_in, StandsForTurn};
ghost use Rattle.disk_journal.specs.Turning.{Changes, IsBeside, IsFirstGate, IsNextTo, IsShut, IsStaged, IsUndone};

use crate::filled::read_filled;
use crate::open::{FRESH, HEAD};
use arc_io::{Area, Disk, Failed, write_synced};

// The other area.
pub fn other(area: Area) -> Area
    ensures { result ≡ other_of area }
{
    match area {
        Area::A => Area::B,
        Area::B => Area::A,
    }
}

// The gate at place 16 is open, or stands in no area so short.
fn gate_of<D: Disk>(disk: &mut D, area: Area) -> Result<Option<bool>, Failed>
    ensures gate { IfOk result (λ gate. IfSome (D.seen disk.old).told (λ s. IsFirstGate gate (part area s))) }
    ensures quiet { IsQuiet (D.seen disk.old) (D.seen disk.new) }
    ensures cause { IsCounted (D.seen disk.old).faults (D.seen disk.new).faults result }
{
    if disk.length(area)? < 17 {
        return Ok(None);
    }
    let mut gate = [0; 1];
    read_filled(disk, area, 16, &mut gate)?;
    Ok(Some(gate[0] == 1))
}

// The first part: the gate at place 16 is closed on the disk. Where it is closed already it is not written, since a torn write could open it
// over what an earlier stopped turn left.
fn close_gate<D: Disk>(disk: &mut D, area: Area) -> Result<(), Failed>
    requires settled { IsSettled (D.seen disk.old) }
    ensures undone { Changes (IsUndone area) (D.seen disk.old) (D.seen disk.new) }
    ensures shut { OnOk result (IfSome (D.seen disk.new).told (λ t. IsShut (part area t))) }
    ensures durable { OnOk result (IfSome (D.seen disk.new).told (λ t. OnlyIn area t (D.seen disk.new).may_leave)) }
    ensures cause { IsCounted (D.seen disk.old).faults (D.seen disk.new).faults result }
{
    match gate_of(disk, area)? {
        None => write_synced(disk, area, 0, &FRESH),
        Some(true) => write_synced(disk, area, 16, &[0]),
        Some(false) => sync_alone(disk, area),
    }
}

fn sync_alone<D: Disk>(disk: &mut D, area: Area) -> Result<(), Failed>
    ensures quiet { IsQuiet (D.seen disk.old) (D.seen disk.new) }
    ensures durable { OnOk result (IfSome (D.seen disk.new).told (λ t. OnlyIn area t (D.seen disk.new).may_leave)) }
    ensures cause { IsCounted (D.seen disk.old).faults (D.seen disk.new).faults result }
{
    disk.sync(area)
}

// A write that leaves the gate at place 16 alone.
fn put_beside<D: Disk>(disk: &mut D, area: Area, at: u64, bytes: &[u8]) -> Result<(), Failed>
    requires beside { (at + length bytes.now ≤ 16) ⊎ (17 ≤ at) }
    requires place { IfSome (D.seen disk.old).told (λ s. at ≤ length (part area s)) }
    requires fits { at + length bytes.now < 2 ^ 63 }
    ensures beside { Changes (IsBeside area) (D.seen disk.old) (D.seen disk.new) }
    ensures written { OnOk result (Becomes (D.seen disk.old).told (D.seen disk.new).told (IsWritten area at bytes.now)) }
    ensures cause { IsCounted (D.seen disk.old).faults (D.seen disk.new).faults result }
{
    disk.write_at(area, at, bytes)
}

// The length of a body.
fn prefix_of(body: &[u8]) -> [u8; 4]
    requires short { length body.now < 2 ^ 32 }
    ensures { result ≡ to_be_bytes w32 (length body.now) }
{
    (body.len() as u32).to_be_bytes()
}

// The second part: the head, the length, the body and a closed gate behind it are put on the disk, behind the closed gate.
fn put_body<D: Disk>(disk: &mut D, area: Area, body: &[u8]) -> Result<(), Failed>
    requires shut { IfSome (D.seen disk.old).told (λ t. IsShut (part area t)) }
    requires short { length body.now < 2 ^ 32 }
    ensures beside { Changes (IsBeside area) (D.seen disk.old) (D.seen disk.new) }
    ensures staged { OnOk result (IfSome (D.seen disk.new).told (λ t. IsStaged body.now (part area t))) }
    ensures durable { OnOk result (IfSome (D.seen disk.new).told (λ t. OnlyIn area t (D.seen disk.new).may_leave)) }
    ensures cause { IsCounted (D.seen disk.old).faults (D.seen disk.new).faults result }
{
    put_beside(disk, area, 0, &HEAD)?;
    put_beside(disk, area, 17, &prefix_of(body))?;
    put_beside(disk, area, 21, body)?;
    put_beside(disk, area, 21 + body.len() as u64, &[0])?;
    sync_alone(disk, area)
}

// The three parts. The third opens the gate, and with it the area is the one of the greater generation.
pub fn write_turn<D: Disk>(disk: &mut D, area: Area, body: &[u8]) -> Result<(), Failed>
    requires settled { IsSettled (D.seen disk.old) }
    requires next { (generation : ℕ) × IsNextTo generation body.now }
    requires short { length body.now < 2 ^ 32 }
    ensures rests { OnOk result (IfSome (D.seen disk.new).told (HasBodies area 2 (body.now ∷ []))) }
    ensures settled { OnOk result (IsSettled (D.seen disk.new)) }
    ensures turned { OnOk result ((version : ℕ) (summary : Option (List ℕ)) (bodies : List (List ℕ))
        → Keeps (D.seen disk.old) (other_of area) version summary bodies
        → IsNextTo (generation_in summary) body.now → Keeps (D.seen disk.new) area 2 (Some body.now) []) }
    ensures any_moment { (version : ℕ) (summary : Option (List ℕ)) (bodies : List (List ℕ))
        → Keeps (D.seen disk.old) (other_of area) version summary bodies
        → IsNextTo (generation_in summary) body.now
        → LeavesOnly (D.seen disk.old) (D.seen disk.new) (StandsForTurn version summary bodies body.now) }
    ensures told { (version : ℕ) (summary : Option (List ℕ)) (bodies : List (List ℕ))
        → Keeps (D.seen disk.old) (other_of area) version summary bodies
        → IsNextTo (generation_in summary) body.now
        → Becomes (D.seen disk.old).told (D.seen disk.new).told (λ _ t. StandsForTurn version summary bodies body.now t) }
    ensures spared { Changes (IsSameBeside area) (D.seen disk.old) (D.seen disk.new) }
    ensures cause { IsCounted (D.seen disk.old).faults (D.seen disk.new).faults result }
{
    close_gate(disk, area)?;
    put_body(disk, area, body)?;
    write_synced(disk, area, 16, &[1])
}
