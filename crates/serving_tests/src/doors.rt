// Doors in memory.
ghost use Rattle.std.specs.Prelude.{◌≡◌, All, false};

use arc_doors::MemDoor;
use arc_io::Port;
use std::alloc::Global;
use std::process::Abort;

/// A door to these ports, of which none has been read. Its calls of these numbers fail.
pub(crate) fn door_of<P: Port + Send + Drop>(
    rt: &impl Abort,
    alloc: Global,
    ports: Vec<P>,
    failing: Vec<u64>,
) -> MemDoor<P>
    requires { All (λ port. (P.seen port).ended ≡ false) ports.items }
{
    match MemDoor::new(alloc, ports, failing) {
        Ok(door) => door,
        Err(_) => panic!(rt; "no memory"),
    }
}
