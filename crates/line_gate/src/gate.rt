// The gate. Each of its calls that needs the store locks it, calls one method of what lies there, and lets it go.
ghost use Rattle.std.specs.Prelude.{◌≡◌, ◌≤◌, ◌<◌, ◌++◌, List, [], All, Some, None, true, false, length, take, drop, IfOk, IfErr, IfSome, OnErr};
ghost use Rattle.arc_data.specs.WellFormed.{IsWellFormed};
ghost use Rattle.centre_rules.specs.Summary.{Summary};
ghost use Rattle.centre_rules.specs.History.{Entry, IsMoment};
ghost use Rattle.centre_core.specs.Batches.{IsDownThen};
ghost use Rattle.centre_core.specs.GroupHalls.{ShowsLeft};
ghost use Rattle.centre_core.specs.Runs.{IsSubmitted};
ghost use Rattle.centre_store.specs.Stores.{StoreStands};
ghost use Rattle.line_gate.specs.AtGates.{gate_seen};
ghost use Rattle.line_gate.specs.Entries.{Extends};
ghost use Rattle.line_gate.specs.Groups.{MakesTold, ClosesGroup, IsClosedOrBroken};
ghost use Rattle.line_gate.specs.Blanks.{Names};
ghost use Rattle.line_gate.specs.Passes.{IsPass, IsLater, Makes, PassShows};
ghost use Rattle.line_gate.specs.Terms.{IsPastBase};

use crate::blank::Blank;
use crate::closed::GroupClosed;
use crate::locked_store::LockedStore;
use crate::name::GateName;
use crate::pass::Pass;
use crate::steps::show;
use crate::view::GateTable;
use arc_data::{Event, Memory};
use arc_io::Disk;
use centre_core::{Batch, Done, Grouped, Setup, Stop};
use centre_store::Store;
use std::alloc::Global;
use std::marker::PhantomData;
use std::sync::{Mutex, Wait};

/// A store under a lock, which many callers share, each with a pass of its own. The lock is held within `submit`, `submit_all` and `split`
/// alone, for one call of the store at most. Whether it takes events together is said by its name.
pub struct Gate<D: Disk, N: GateName> {
    locked: Mutex<LockedStore<D, N>>,
    table: GateTable,
    setup: Setup,
    ghost words: { N.terms.table.words ≡ 2 },
    ghost named: { table.shared.table_id ≡ N.terms.table },
    ghost text: { setup ≡ N.terms.text },
}

// Written out: one call wherever one is dropped, where a derived drop is spelled out at each exit.
impl<D: Disk + Drop, N: GateName> Drop for Gate<D, N> {
    fn drop(self) {
        let Gate {
            locked,
            table,
            setup,
        } = self;
        drop(locked);
        drop(table);
        drop(setup);
    }
}

impl<D: Disk, N: GateName> Gate<D, N> {
    /// The gate of its name, and a pass that has seen just the base, nothing since, and made nothing. It takes no memory.
    pub fn new(blank: Blank<D>) -> (Gate<D, N>, Pass<N>)
        requires { Names D.seen N.terms blank }
        ensures pass { IsPass N.terms result.1 }
        ensures first { (result.1.since ≡ []) × (result.1.made ≡ []) × (result.1.told ≡ 0) }
    {
        let Blank {
            store,
            table,
            book,
            first,
            setup,
        } = blank;
        let gate = Gate {
            locked: Mutex::new(LockedStore {
                store,
                book,
                count: 2,
                of: PhantomData,
            }),
            table,
            setup,
        };
        let pass = Pass {
            number: 1,
            seat: first,
            of: PhantomData,
        };
        (gate, pass)
    }

    /// Submits an event of the pass's caller at a reading of the clock (seconds since 1970), which gets one entry. After a Stop it has
    /// none. The stops are those of `Store::submit`; the count of a Down is the greatest that any caller was told.
    pub fn submit<R: Wait>(
        &self,
        rt: &R,
        alloc: Global,
        pass: &mut Pass<N>,
        event: Event,
        clock: u64,
    ) -> Result<Done, Stop>
        requires submitted { IsSubmitted event }
        requires formed { IsWellFormed event }
        requires clock { IsMoment clock }
        ensures pass { IsPass N.terms pass.new }
        ensures later { IsLater pass.old pass.new }
        ensures done { IfOk result (λ d. Makes N.terms pass.old pass.new clock
            (record { caller = d.caller; event = event; at = d.at; reply = d.reply })) }
        ensures by { IfOk result (λ d. d.caller ≡ pass.old.number) }
        ensures made { OnErr result (pass.new.made ≡ pass.old.made) }
        ensures cause { IfErr result (λ s. PassShows N.terms pass.new s event clock) }
    {
        let mut locked = self.locked.lock(rt);
        locked.submit(&self.table.shared, alloc, pass, event, clock)
    }

    /// Submits the events of a batch for the pass's caller, in order, as `Store::submit_all` does: what is answered has its entries all
    /// together at the end of what the pass has seen then, and is off the batch. The count of a Down is the greatest that any caller was
    /// told.
    pub fn submit_all<R: Wait>(
        &self,
        rt: &R,
        alloc: Global,
        pass: &mut Pass<N>,
        batch: &mut Batch,
    ) -> Grouped
        requires groups { N.terms.groups ≡ true }
        ensures pass { IsPass N.terms pass.new }
        ensures later { IsLater pass.old pass.new }
        ensures done { MakesTold N.terms pass.old pass.new (take (length result.done) batch.old) result.done }
        ensures by { All (λ d. d.caller ≡ pass.old.number) result.done }
        ensures within { length result.done ≤ length batch.old }
        ensures some { result.stop ≡ None → (batch.old ≡ [] → ⊥) → 1 ≤ length result.done }
        ensures off { (IsDownThen result.stop → ⊥) → batch.new ≡ drop (length result.done) batch.old }
        ensures none { IsDownThen result.stop → result.done ≡ [] }
        ensures cause { IfSome result.stop (λ s. ShowsLeft (gate_seen N.terms pass.new) s batch.new) }
    {
        let mut locked = self.locked.lock(rt);
        locked.submit_all(&self.table.shared, alloc, pass, batch)
    }

    /// A pass with a new number, which has seen all that the given one has seen, and made nothing. The error is want of memory, or of a
    /// number: the numbers are those of a u64.
    pub fn split<R: Wait>(&self, rt: &R, pass: &mut Pass<N>) -> Result<Pass<N>, Memory>
        ensures pass { IsPass N.terms pass.new }
        ensures later { IsLater pass.old pass.new }
        ensures made { pass.new.made ≡ pass.old.made }
        ensures new { IfOk result (λ p. IsPass N.terms p × (p.made ≡ []) × Extends pass.old.since p.since
            × (pass.old.count ≤ p.number) × (p.number < pass.new.count)) }
    {
        let mut locked = self.locked.lock(rt);
        locked.split(&self.table.shared, pass)
    }

    /// The pass has then seen all that either had. The other is spent. It takes no memory and waits for nobody.
    pub fn take_in(&self, pass: &mut Pass<N>, other: Pass<N>)
        ensures pass { IsPass N.terms pass.new }
        ensures later { IsLater pass.old pass.new }
        ensures made { pass.new.made ≡ pass.old.made }
        ensures since { Extends other.since pass.new.since }
        ensures told { other.told ≤ pass.new.told }
    {
        let Pass {
            number: _,
            seat,
            of: _,
        } = other;
        pass.learn(&self.table.shared, seat);
    }

    /// One has then seen all that either had. It waits for nobody. The error is want of memory.
    pub fn meet(&self, one: &mut Pass<N>, other: &mut Pass<N>) -> Result<(), Memory>
        ensures pass { IsPass N.terms one.new }
        ensures later { IsLater one.old one.new }
        ensures made { one.new.made ≡ one.old.made }
        ensures since { Extends other.old.since one.new.since }
        ensures told { other.old.told ≤ one.new.told }
        ensures other { other.new ≡ other.old }
    {
        let shown = other.note(&self.table.shared);
        one.learn(&self.table.shared, shown);
        Ok(())
    }

    /// Gives the store back. It stands for a history that begins with all that the pass has seen, in which past the base stands what
    /// callers submitted, and its disk's count is no less than what the pass was told.
    pub fn close(self, first: Pass<N>) -> Store<D>
        requires single { N.terms.groups ≡ false }
        ensures stands { (b : Summary) (base : List Entry) → N.terms.stood b base
            → (h : List Entry) × Extends (first.since ++ base) h × StoreStands D.seen b result h × IsPastBase base h }
        ensures told { first.told ≤ (D.seen result.journal.disk).faults }
        ensures at_open { result.at_open ≡ N.terms.at_open }
        ensures limits { result.journal.limits ≡ N.terms.limits }
        ensures text { result.state.sum.text ≡ Some N.terms.text }
    {
        self.close_any(first)
    }

    /// Closes the gate. The store comes back whole exactly where its disk has not failed since the opening, and is then as one that `close`
    /// gives. Else the disk alone comes back.
    pub fn close_group(self, first: Pass<N>) -> GroupClosed<D>
        ensures { ClosesGroup D.seen N.terms first result }
    {
        let store = self.close_any(first);
        let failed = store.has_failed();
        if failed {
            let (at_open, now) = store.counts();
            let disk = store.close();
            return GroupClosed::Broken { disk, at_open, now };
        }
        GroupClosed::Whole(store)
    }

    // Gives the store back, whatever it stands for: it stands for a history that begins with all that the pass has seen, or is broken.
    fn close_any(self, first: Pass<N>) -> Store<D>
        ensures stands { IsClosedOrBroken D.seen N.terms first result }
        ensures told { first.told ≤ (D.seen result.journal.disk).faults }
        ensures at_open { result.at_open ≡ N.terms.at_open }
        ensures limits { result.journal.limits ≡ N.terms.limits }
        ensures text { result.state.sum.text ≡ Some N.terms.text }
    {
        let Gate {
            locked,
            table,
            setup: _,
        } = self;
        let LockedStore {
            store,
            mut book,
            count: _,
            of: _,
        } = locked.into_inner();
        let Pass {
            number: _,
            seat,
            of: _,
        } = first;
        show(&table.shared, &mut book, seat);
        store
    }

    /// The setup in force.
    pub fn setup(&self) -> &Setup
        ensures { result.now ≡ N.terms.text }
    {
        &self.setup
    }
}
