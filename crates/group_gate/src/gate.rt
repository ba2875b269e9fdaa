// The gate with groups, and what goes with it.
ghost use Rattle.std.specs.Prelude.{◌≡◌, ◌≤◌, ◌<◌, [], List, All, None, true, length, take, drop, IfOk, IfErr, IfSome, OnErr};
ghost use Rattle.arc_data.specs.WellFormed.{IsWellFormed};
ghost use Rattle.centre_core.specs.Batches.{IsDownThen};
ghost use Rattle.centre_core.specs.GroupHalls.{ShowsLeft};
ghost use Rattle.centre_core.specs.Runs.{IsSubmitted};
ghost use Rattle.centre_rules.specs.History.{IsMoment};
ghost use Rattle.line_gate.specs.AtGates.{gate_seen};
ghost use Rattle.line_gate.specs.Blanks.{Names};
ghost use Rattle.line_gate.specs.Entries.{Extends};
ghost use Rattle.line_gate.specs.Groups.{MakesTold, ClosesGroup};
ghost use Rattle.line_gate.specs.Passes.{IsPass, IsLater, Makes, PassShows};

use arc_data::{Event, Memory};
use arc_io::Disk;
use centre_core::{Batch, Done, Grouped, Setup, Stop};
use line_gate::{Blank, Gate, GateName, GroupClosed, Pass};
use std::alloc::Global;
use std::sync::Wait;

/// A gate with groups that has no name yet.
pub type GroupBlank<D> = Blank<D>;

/// A caller's token at a gate with groups.
pub type GroupPass<N> = Pass<N>;

/// A gate at which callers may submit events together. What its calls do is said at those of the same names of `Gate`.
pub struct GroupGate<D: Disk, N: GateName> {
    pub gate: Gate<D, N>,
    ghost groups: { N.terms.groups ≡ true },
}

// Written out, as that of `Gate`.
impl<D: Disk + Drop, N: GateName> Drop for GroupGate<D, N> {
    fn drop(self) {
        let GroupGate { gate } = self;
        drop(gate);
    }
}

impl<D: Disk, N: GateName> GroupGate<D, N> {
    /// The gate of its name, and a pass that has seen just the base, nothing since, and made nothing. It takes no memory.
    pub fn new(blank: GroupBlank<D>) -> (GroupGate<D, N>, GroupPass<N>)
        requires names { Names D.seen N.terms blank }
        requires groups { N.terms.groups ≡ true }
        ensures pass { IsPass N.terms result.1 }
        ensures first { (result.1.since ≡ []) × (result.1.made ≡ []) × (result.1.told ≡ 0) }
    {
        let (gate, pass) = Gate::new(blank);
        (GroupGate { gate }, pass)
    }

    /// Submits an event alone.
    pub fn submit<R: Wait>(
        &self,
        rt: &R,
        alloc: Global,
        pass: &mut GroupPass<N>,
        event: Event,
        clock: u64,
    ) -> Result<Done, Stop>
        requires submitted { IsSubmitted event }
        requires formed { IsWellFormed event }
        requires clock { IsMoment clock }
        ensures pass { IsPass N.terms pass.new }
        ensures later { IsLater pass.old pass.new }
        ensures done { IfOk result (λ d. Makes N.terms pass.old pass.new clock
            (record { caller = d.caller; event = event; at = d.at; reply = d.reply })) }
        ensures by { IfOk result (λ d. d.caller ≡ pass.old.number) }
        ensures made { OnErr result (pass.new.made ≡ pass.old.made) }
        ensures cause { IfErr result (λ s. PassShows N.terms pass.new s event clock) }
    {
        self.gate.submit(rt, alloc, pass, event, clock)
    }

    /// Submits the events of a batch together.
    pub fn submit_all<R: Wait>(
        &self,
        rt: &R,
        alloc: Global,
        pass: &mut GroupPass<N>,
        batch: &mut Batch,
    ) -> Grouped
        ensures pass { IsPass N.terms pass.new }
        ensures later { IsLater pass.old pass.new }
        ensures done { MakesTold N.terms pass.old pass.new (take (length result.done) batch.old) result.done }
        ensures by { All (λ d. d.caller ≡ pass.old.number) result.done }
        ensures within { length result.done ≤ length batch.old }
        ensures some { result.stop ≡ None → (batch.old ≡ [] → ⊥) → 1 ≤ length result.done }
        ensures off { (IsDownThen result.stop → ⊥) → batch.new ≡ drop (length result.done) batch.old }
        ensures none { IsDownThen result.stop → result.done ≡ [] }
        ensures cause { IfSome result.stop (λ s. ShowsLeft (gate_seen N.terms pass.new) s batch.new) }
    {
        self.gate.submit_all(rt, alloc, pass, batch)
    }

    /// A pass with a new number. The error is want of memory, or of a number.
    pub fn split<R: Wait>(&self, rt: &R, pass: &mut GroupPass<N>) -> Result<GroupPass<N>, Memory>
        ensures pass { IsPass N.terms pass.new }
        ensures later { IsLater pass.old pass.new }
        ensures made { pass.new.made ≡ pass.old.made }
        ensures new { IfOk result (λ p. IsPass N.terms p × (p.made ≡ []) × Extends pass.old.since p.since
            × (pass.old.count ≤ p.number) × (p.number < pass.new.count)) }
    {
        self.gate.split(rt, pass)
    }

    /// The pass has then seen all that either had. The other is spent. It takes no memory and waits for nobody.
    pub fn take_in(&self, pass: &mut GroupPass<N>, other: GroupPass<N>)
        ensures pass { IsPass N.terms pass.new }
        ensures later { IsLater pass.old pass.new }
        ensures made { pass.new.made ≡ pass.old.made }
        ensures since { Extends other.since pass.new.since }
        ensures told { other.told ≤ pass.new.told }
    {
        self.gate.take_in(pass, other);
    }

    /// One has then seen all that either had. It waits for nobody. The error is want of memory.
    pub fn meet(&self, one: &mut GroupPass<N>, other: &mut GroupPass<N>) -> Result<(), Memory>
        ensures pass { IsPass N.terms one.new }
        ensures later { IsLater one.old one.new }
        ensures made { one.new.made ≡ one.old.made }
        ensures since { Extends other.old.since one.new.since }
        ensures told { other.old.told ≤ one.new.told }
        ensures other { other.new ≡ other.old }
    {
        self.gate.meet(one, other)
    }

    /// Closes the gate.
    pub fn close(self, first: GroupPass<N>) -> GroupClosed<D>
        ensures { ClosesGroup D.seen N.terms first result }
    {
        let GroupGate { gate } = self;
        gate.close_group(first)
    }

    /// The setup in force.
    pub fn setup(&self) -> &Setup
        ensures { result.now ≡ N.terms.text }
    {
        self.gate.setup()
    }
}
