// A hall that tells in its replies what it was asked.
use arc_data::{Class, Event, Listing, Reply, Txt};
use centre_core::{Done, Hall, Setup, Stop};
use std::alloc::Global;
use std::process::Abort;

/// A hall that answers each event by what it is, or stops, and counts them. Contracts see it stand for no history.
#[derive(Drop)]
pub(crate) struct Told {
    setup: Setup,
    stop: Option<Stop>,
    /// How many events it was asked.
    pub(crate) calls: u64,
}

impl Told {
    /// A hall under this setup, which was not asked yet, and stops so each time where a stop is given.
    pub(crate) fn new(rt: &impl Abort, alloc: Global, setup: &[u8], stop: Option<Stop>) -> Told {
        Told {
            setup: Setup::read(alloc, setup).expect(rt, "a setup"),
            stop,
            calls: 0,
        }
    }
}

impl Hall for Told {
    ghost use Rattle.centre_core.specs.Halls.{no_disk};

    ghost seen = { λ s. record {
      ready = Unit {0};
      text = s.setup;
      caller = 0;
      fixed = no_disk;
      count = 1;
      told = 0;
      stands = λ b h. ⊥;
      readable = λ b h. Unit {0};
      leaves = λ t k b h. Unit {0};
      own = λ h. h;
      shows = λ stop event clock. Unit {0};
      up = Unit {0};
      torn = λ b h event clock. Unit {0};
    } };

    ghost legal = { λ s b h w. absurd w };

    ghost in_force = { λ s b h w. absurd w };

    fn submit(&mut self, alloc: Global, event: Event, clock: u64) -> Result<Done, Stop> {
        self.calls = self.calls.saturating_add(1);
        if let Some(stop) = self.stop {
            return Err(stop);
        }
        let reply = reply_to(alloc, &event);
        Ok(Done {
            caller: 0,
            at: clock,
            reply,
        })
    }

    fn setup(&self) -> &Setup {
        &self.setup
    }
}

// A reply that shows what was asked.
fn reply_to(alloc: Global, event: &Event) -> Reply {
    match event {
        Event::Next { operator } => Reply::HeldBy {
            operator: *operator,
        },
        Event::Claim { number, .. } => Reply::Claimed {
            number: *number,
            class: Class::Fire,
            account: Txt::question(),
        },
        Event::Act { number, step, .. } if *number == 2 => Reply::Missing { step: *step },
        Event::Act { number, .. } => Reply::Recorded {
            number: *number,
            left: 0,
        },
        Event::Release { number, .. } => Reply::Released { number: *number },
        Event::Close { number, .. } => Reply::Closed { number: *number },
        Event::Show { number } => Reply::NotOpen { number: *number },
        Event::List => Reply::Listed(Listing::of(7, Vec::new(alloc))),
        _ => Reply::Unknown,
    }
}
