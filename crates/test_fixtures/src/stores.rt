// Stores over disks.
ghost use Rattle.std.specs.Prelude.{◌≡◌, ◌<◌, ◌^◌, IfSome};
ghost use Rattle.centre_store.specs.Stores.{Stored};
ghost use Rattle.centre_store.specs.Openings.{IsOpened};

use arc_io::Disk;
use centre_store::Store;
use disk_journal::{Limits, SHIPPED};
use std::alloc::Global;

/// The store that a disk is opened as. None where it is refused.
pub fn opened<D: Disk + Drop>(alloc: Global, disk: D, limits: Limits) -> Option<Store<D>>
    requires { limits.bytes < 2 ^ 32 }
    ensures opened { IfSome result (λ s. IsOpened D.seen disk s) }
    ensures limits { IfSome result (λ s. s.journal.limits ≡ limits) }
{
    match Store::open(alloc, disk, limits) {
        Ok(store) => Some(store),
        Err(refused) => {
            drop(refused);
            None
        }
    }
}

/// How many entries of the area are recorded. None where the disk is refused.
pub fn recorded<D: Disk + Drop>(alloc: Global, disk: D) -> Option<u64>
    ensures { IfSome result (λ n. (s : Stored D) × IsOpened D.seen disk s × (n ≡ s.state.sum.recorded)) }
{
    let store = opened(alloc, disk, SHIPPED)?;
    Some(store.centre().recorded())
}
