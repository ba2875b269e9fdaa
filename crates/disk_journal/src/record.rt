// A record's bytes, and how they get to the disk.
ghost use Rattle.std.specs.Prelude.{◌≡◌, ◌≤◌, ◌<◌, ◌+◌, ◌^◌, ◌++◌, [], ◌∷◌, ℕ, List, Option, length, take, OnOk, IfSome};
ghost use Rattle.arc_io.specs.Crashes.{Becomes, LeavesOnly};
ghost use Rattle.arc_io.specs.Causes.{IsCounted};
ghost use Rattle.disk_journal.specs.Records.{MayHave, AreLaid, bytes_of, size};
ghost use Rattle.disk_journal.specs.Journal.{HasBodies, IsSettled, Keeps};
ghost use Rattle.disk_journal.specs.OtherArea.{SparesOther};
ghost use Rattle.disk_journal.specs.Behind.{SparesBehind};
ghost use Rattle.disk_journal.specs.Standing.{size_of, IsDistinct, StandsForSet};

use arc_io::{Area, Disk, Failed, write_synced};

// Joins the length, the body and the gate behind it in the room's front.
pub fn lay(room: &mut [u8], body: &[u8], gate: u8)
    requires size { MayHave (length body.now) }
    requires room { 5 + length body.now ≤ length room.old }
    ensures { take (5 + length body.now) room.new ≡ bytes_of body.now ++ gate ∷ [] }
{
    let end = 4 + body.len();
    room[..4].copy_from_slice(&(body.len() as u32).to_be_bytes());
    room[4..end].copy_from_slice(body);
    room[end] = gate;
}

// Four device calls: what is laid is on the disk behind the closed gate before the gate is opened, and with it all the records.
pub fn write_record<D: Disk>(disk: &mut D, area: Area, used: u64, laid: &[u8]) -> Result<(), Failed>
    requires works { (version : ℕ) × (bodies : List (List ℕ)) × (used ≡ size bodies)
        × IfSome (D.seen disk.old).told (HasBodies area version bodies) }
    requires settled { IsSettled (D.seen disk.old) }
    requires fits { used + length laid.now < 2 ^ 63 }
    ensures added { OnOk result ((version : ℕ) (summary : Option (List ℕ)) (bodies further : List (List ℕ)) → AreLaid further laid.now
        → used ≡ size_of summary bodies → Keeps (D.seen disk.old) area version summary bodies → IsDistinct summary (bodies ++ further)
        → Keeps (D.seen disk.new) area version summary (bodies ++ further)) }
    ensures any_moment { (version : ℕ) (summary : Option (List ℕ)) (bodies further : List (List ℕ)) → AreLaid further laid.now
        → used ≡ size_of summary bodies → Keeps (D.seen disk.old) area version summary bodies → IsDistinct summary (bodies ++ further)
        → LeavesOnly (D.seen disk.old) (D.seen disk.new) (StandsForSet version summary bodies further) }
    ensures told { (version : ℕ) (summary : Option (List ℕ)) (bodies further : List (List ℕ)) → AreLaid further laid.now
        → used ≡ size_of summary bodies → Keeps (D.seen disk.old) area version summary bodies → IsDistinct summary (bodies ++ further)
        → Becomes (D.seen disk.old).told (D.seen disk.new).told (λ _ t. StandsForSet version summary bodies further t) }
    ensures rests { OnOk result ((version : ℕ) (bodies further : List (List ℕ)) → AreLaid further laid.now → used ≡ size bodies
        → IfSome (D.seen disk.old).told (HasBodies area version bodies)
        → IfSome (D.seen disk.new).told (HasBodies area version (bodies ++ further))) }
    ensures settled { OnOk result (IsSettled (D.seen disk.new)) }
    ensures spared { (version : ℕ) (summary : Option (List ℕ)) (bodies : List (List ℕ))
        → Keeps (D.seen disk.old) area version summary bodies
        → SparesOther (D.seen disk.old) (D.seen disk.new) }
    ensures behind { (version : ℕ) (summary : Option (List ℕ)) (bodies : List (List ℕ))
        → Keeps (D.seen disk.old) area version summary bodies
        → SparesBehind (used + length laid.now) (D.seen disk.old) (D.seen disk.new) }
    ensures cause { IsCounted (D.seen disk.old).faults (D.seen disk.new).faults result }
{
    write_synced(disk, area, used, laid)?;
    write_synced(disk, area, used - 1, &[1])
}
