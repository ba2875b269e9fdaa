// Doors to a port of the network.
ghost use Rattle.std.specs.Prelude.{◌≡◌, All, None, IfOk, length, false};
ghost use Rattle.arc_io.specs.Causes.{HasCause};

use super::{Peers, TcpPort};
use crate::Door;
use arc_data::Memory;
use arc_io::{Ends, Failed, RefusalLines};
use std::alloc::Global;
use std::io::ErrorKind;
use std::net::{Net, OpenListener, SocketAddr, TcpListener};
use std::random::RandomSource;
use std::sync::atomic::{AtomicU64, Ordering};
use std::sync::{Arc, Mutex, OnceLock, Wait};
use std::time::Duration;
use std::{io, thread, time};

// How often in a row a door fails to take a connection until it gives up, and for how many milliseconds it pauses between.
pub(super) const TRIES: u32 = 600;

pub(super) const PAUSE: u64 = 100;

// For how many seconds nothing more is said of doors that fail, once it was.
const QUIET: u64 = 600;

/// A door to a port of this machine, one of several over one listener. Each waits by itself for the next connection.
///
/// Taking a connection may fail for a cause that passes: another program has the port, the peer is gone, or too many files are open. That
/// is counted, said on standard error, and tried again after a pause. The call fails where no try of a minute took a connection.
#[derive(Drop)]
pub struct TcpDoor<R: Net + time::Clock + RandomSource + Eprint> {
    rt: R,
    shared: Arc<Shared<R::Listener>, Global>,
    faults: u64,
    // What its connections say of what is refused: it goes from one to the next.
    refusals: RefusalLines,
}

// What the doors share: whom they take, the port, the listener, once one of them has bound it, and a lock round that.
#[derive(Drop)]
struct Shared<L> {
    peers: Peers,
    port: u16,
    // The second of the machine's running from which on a failure is said again.
    quiet_until: AtomicU64,
    binding: Mutex<()>,
    listener: OnceLock<L>,
}

impl<R: Net + time::Clock + RandomSource + Eprint + Send + Copy> TcpDoor<R>
where
    R::Stream: Send,
{
    /// So many doors for these peers to this port at 127.0.0.1. The port is bound at the first call of one of them. The error is want of
    /// memory.
    pub fn shared(
        rt: R,
        alloc: Global,
        peers: Peers,
        port: u16,
        n: usize,
    ) -> Result<Vec<TcpDoor<R>>, Memory>
        ensures count { IfOk result (λ doors. length doors.items ≡ n) }
        ensures faults { IfOk result (λ doors. All (λ door. (⟦<TcpDoor<R> as Door>⟧.seen door).faults ≡ 0) doors.items) }
    {
        let nothing = Shared {
            peers,
            port,
            quiet_until: AtomicU64::new(0),
            binding: Mutex::new(()),
            listener: OnceLock::new(),
        };
        let Ok(shared) = Arc::new(alloc, nothing) else {
            return Err(Memory);
        };
        let Ok(mut doors) = Vec::with_capacity(alloc, n) else {
            return Err(Memory);
        };
        for _ in 0..n {
            let Ok(shared) = Arc::try_clone(&shared) else {
                return Err(Memory);
            };
            doors.push_reserved(TcpDoor {
                rt,
                shared,
                faults: 0,
                refusals: RefusalLines::new(),
            });
        }
        Ok(doors)
    }
}

impl<L: OpenListener> Shared<L> {
    // What listens. The first door that comes here binds it, and says so.
    fn listener<R: Net<Listener = L> + Eprint, W: Wait>(&self, net: &R, rt: &W) -> io::Result<&L> {
        let _binding = self.binding.lock(rt);
        if self.listener.get().is_none() {
            let address = SocketAddr::from(([127, 0, 0, 1], self.port));
            let _ = self.listener.try_set(TcpListener::bind(net, address)?);
            let _ = eprintln!(net; "{} listen at {address}", self.peers.name());
        }
        self.listener.get().ok_or(ErrorKind::NotConnected.into())
    }

    // Says that a door failed, where that was not said within the last ten minutes.
    fn tell<R: time::Clock + Eprint>(&self, rt: &R, error: io::Error) {
        let now = match rt.monotonic() {
            Ok(since) => since.as_secs(),
            Err(_) => 0,
        };
        let until = self.quiet_until.load(Ordering::SeqCst);
        let next = now.saturating_add(QUIET);
        let order = Ordering::SeqCst;
        if now >= until
            && self
                .quiet_until
                .compare_exchange(until, next, order, order)
                .is_ok()
        {
            let (name, port) = (self.peers.name(), self.port);
            let _ = eprintln!(rt;
                "{name} take no connection at port {port}, and try again: {error}"
            );
        }
    }
}

impl<R: Net + time::Clock + RandomSource + Eprint + Send + Copy> Door for TcpDoor<R>
where
    R::Stream: Send,
{
    type Link = TcpPort<R::Stream, R>;

    ghost seen = { λ door. record { links = None; faults = door.faults } };

    ghost within = { λ _. tt };

    fn next<W: Wait>(&mut self, rt: &W) -> Result<Option<TcpPort<R::Stream, R>>, Failed> {
        let mut link = take_link(self.rt, rt, &self.shared, &mut self.faults)?;
        link.refusals = self.refusals;
        Ok(Some(link))
    }

    fn back(&mut self, link: TcpPort<R::Stream, R>) {
        self.refusals = link.refusals;
    }

    fn faults(&self) -> u64 {
        self.faults
    }
}

// Takes the next connection, and counts each time that fails.
fn take_link<R: Net + time::Clock + RandomSource + Eprint + Copy, W: Wait>(
    host: R,
    rt: &W,
    shared: &Shared<R::Listener>,
    faults: &mut u64,
) -> Result<TcpPort<R::Stream, R>, Failed>
    ensures cause { HasCause faults.old faults.new result }
    ensures not_ended { IfOk result (λ link. (⟦<TcpPort<R::Stream, R> as Ends>⟧.seen link).ended ≡ false) }
{
    let mut tries = 0;
    loop {
        match accept(host, rt, shared) {
            Ok(link) => return Ok(link),
            Err(error) => shared.tell(&host, error),
        }
        *faults = faults.saturating_add(1);
        tries += 1;
        if tries == TRIES {
            let _ = eprintln!(&host;
                "one of the {} takes no connection any more",
                shared.peers.name()
            );
            return Err(Failed);
        }
        thread::sleep(&host, Duration::from_millis(PAUSE));
    }
}

fn accept<R: Net + time::Clock + RandomSource + Eprint + Copy, W: Wait>(
    host: R,
    rt: &W,
    shared: &Shared<R::Listener>,
) -> io::Result<TcpPort<R::Stream, R>>
    ensures { IfOk result (λ link. (⟦<TcpPort<R::Stream, R> as Ends>⟧.seen link).ended ≡ false) }
{
    let (stream, _) = shared.listener(&host, rt)?.accept()?;
    TcpPort::new(stream, host, shared.peers)
}
