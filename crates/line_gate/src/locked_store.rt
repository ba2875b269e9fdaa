// What lies under the lock: the store, and the book, the one seat that knows the whole history. All that is done under the lock is a method
// of it.
ghost use Rattle.std.specs.Prelude.{◌≡◌, ◌≤◌, ◌<◌, ◌^◌, ◌++◌, ◌∷◌, [], List, All, Some, None, true, false, max, length, take, drop, IfOk, IfErr, IfSome, OnErr};
ghost use Rattle.arc_data.specs.WellFormed.{IsWellFormed};
ghost use Rattle.centre_rules.specs.History.{Entry, IsMoment};
ghost use Rattle.centre_core.specs.Batches.{IsDownThen};
ghost use Rattle.centre_core.specs.GroupHalls.{ShowsLeft};
ghost use Rattle.centre_core.specs.Runs.{IsSubmitted};
ghost use Rattle.centre_store.specs.Stores.{StandsOn};
ghost use Rattle.line_gate.specs.AtGates.{gate_seen};
ghost use Rattle.line_gate.specs.Entries.{Extends, AreBy};
ghost use Rattle.line_gate.specs.Groups.{MakesTold, told_entries};
ghost use Rattle.line_gate.specs.Terms.{IsOfGate};
ghost use Rattle.line_gate.specs.UnderLock.{IsBookSeat, IsEntered};
ghost use Rattle.line_gate.specs.Passes.{IsPass, IsLater, Makes, PassShows, grown};

use crate::name::GateName;
use crate::pass::Pass;
use crate::steps::{catch, mark, name, new_pass, note, show};
use crate::view::{Following, GateSeat, Words};
use arc_data::{Event, Memory};
use arc_io::Disk;
use centre_core::{Batch, Done, Dones, Grouped, Stop};
use centre_store::Store;
use std::alloc::Global;
use std::marker::{Brand, Model, PhantomData};
use std::snapshot::Snapshot;

/// The locked value: the store, the book's seat, and the next number to give.
#[derive(Drop)]
pub struct LockedStore<D: Disk, N: GateName> {
    pub(crate) store: Store<D>,
    pub(crate) book: GateSeat,
    pub(crate) count: u64,
    pub(crate) of: PhantomData<N>,
}

impl<D: Disk, N: GateName> Model for LockedStore<D, N> {
    ghost use Rattle.line_gate.specs.UnderLock.{UnderLock, IsUnderLock};

    ghost Value = { UnderLock D };

    ghost view = { λ l. record { book = l.book.me.0; store = l.store } };

    ghost invariant = { λ l. IsUnderLock D.seen N.terms l.count l.book.table_id l.book.me l.store };
}

impl<D: Disk, N: GateName> LockedStore<D, N> {
    // The book is shown what the pass knows, and then the pass has seen the whole history.
    pub(crate) fn meet(&mut self, words: &Words, pass: &mut Pass<N>)
        requires table { (words.now.table_id ≡ N.terms.table) × (N.terms.table.words ≡ 2) }
        ensures pass { IsPass N.terms pass.new }
        ensures later { IsLater pass.old pass.new }
        ensures made { pass.new.made ≡ pass.old.made }
        ensures since { pass.new.since ≡ self.new.book.seen }
        ensures count { pass.new.count ≡ self.new.book.count }
        ensures told { pass.new.told ≡ self.new.book.told }
        ensures store { self.new.store ≡ self.old.store }
    {
        let shown = pass.note(words);
        show(words, &mut self.book, shown);
        let back = note(words, &mut self.book);
        pass.learn(words, back);
    }

    // A new pass, which has seen the whole history, and made nothing. There is none where all numbers are given.
    pub(crate) fn split(&mut self, words: &Words, pass: &mut Pass<N>) -> Result<Pass<N>, Memory>
        requires table { (words.now.table_id ≡ N.terms.table) × (N.terms.table.words ≡ 2) }
        ensures pass { IsPass N.terms pass.new }
        ensures later { IsLater pass.old pass.new }
        ensures made { pass.new.made ≡ pass.old.made }
        ensures new { IfOk result (λ p. IsPass N.terms p × (p.made ≡ []) × Extends pass.old.since p.since
            × (pass.old.count ≤ p.number) × (p.number < pass.new.count)) }
    {
        self.meet(words, pass);
        let number = self.count;
        if number == u64::MAX {
            return Err(Memory);
        }
        let seat = new_pass(words, &mut self.book);
        self.count += 1;
        let back = note(words, &mut self.book);
        pass.learn(words, back);
        Ok(Pass {
            number,
            seat,
            of: PhantomData,
        })
    }

    // Submits an event of the pass's caller.
    pub(crate) fn submit(
        &mut self,
        words: &Words,
        alloc: Global,
        pass: &mut Pass<N>,
        event: Event,
        clock: u64,
    ) -> Result<Done, Stop>
        requires table { (words.now.table_id ≡ N.terms.table) × (N.terms.table.words ≡ 2) }
        requires submitted { IsSubmitted event }
        requires formed { IsWellFormed event }
        requires clock { IsMoment clock }
        ensures pass { IsPass N.terms pass.new }
        ensures later { IsLater pass.old pass.new }
        ensures done { IfOk result (λ d. Makes N.terms pass.old pass.new clock
            (record { caller = d.caller; event = event; at = d.at; reply = d.reply })) }
        ensures by { IfOk result (λ d. d.caller ≡ pass.old.number) }
        ensures made { OnErr result (pass.new.made ≡ pass.old.made) }

        // A call that stops added nothing, of anybody's: the store stands for what it stood for, with as many entries.
        ensures stop { OnErr result (StandsOn D.seen self.old.store self.new.store) }
        ensures entries { OnErr result (self.new.store.state.entries ≡ self.old.store.state.entries) }
        ensures cause { IfErr result (λ s. PassShows N.terms pass.new s event clock) }
    {
        self.meet(words, pass);
        let of = Snapshot::of(&event);
        match self.store.submit(alloc, pass.number, event, clock) {
            Ok(done) => {
                enter_one::<Brand, N>(words, &mut self.book, pass, &of, &done);
                Ok(done)
            }
            Err(Stop::Memory) => Err(Stop::Memory),
            Err(Stop::Down { at_open, now }) => {
                let now = self.tell(words, pass, now);
                Err(Stop::Down { at_open, now })
            }
            Err(
                Stop::Full {
                    used,
                    need,
                    records,
                },
            ) => Err(Stop::Full {
                used,
                need,
                records,
            }),
            Err(Stop::Worn { count }) => Err(Stop::Worn { count }),
        }
    }

    // Submits events of the pass's caller together.
    pub(crate) fn submit_all(
        &mut self,
        words: &Words,
        alloc: Global,
        pass: &mut Pass<N>,
        batch: &mut Batch,
    ) -> Grouped
        requires table { (words.now.table_id ≡ N.terms.table) × (N.terms.table.words ≡ 2) }
        requires groups { N.terms.groups ≡ true }
        ensures pass { IsPass N.terms pass.new }
        ensures later { IsLater pass.old pass.new }
        ensures done { MakesTold N.terms pass.old pass.new (take (length result.done) batch.old) result.done }
        ensures by { All (λ d. d.caller ≡ pass.old.number) result.done }
        ensures within { length result.done ≤ length batch.old }
        ensures some { result.stop ≡ None → (batch.old ≡ [] → ⊥) → 1 ≤ length result.done }
        ensures off { (IsDownThen result.stop → ⊥) → batch.new ≡ drop (length result.done) batch.old }
        ensures none { IsDownThen result.stop → result.done ≡ [] }
        ensures cause { IfSome result.stop (λ s. ShowsLeft (gate_seen N.terms pass.new) s batch.new) }
    {
        self.meet(words, pass);
        let of = Snapshot::of(&*batch);
        // Read for what is so of each batch: it has 64 events at most, which callers submit.
        let _calls = &batch.calls;
        let Grouped { done, stop } = self.store.submit_all(alloc, pass.number, batch);
        enter_all::<Brand, N>(words, &mut self.book, pass, &of, &done);
        // Down comes exactly where the disk has failed.
        let failed = self.store.has_failed();
        if failed {
            let (at_open, now) = self.store.counts();
            let now = self.tell(words, pass, now);
            let stop = Some(Stop::Down { at_open, now });
            return Grouped { done, stop };
        }
        Grouped { done, stop }
    }

    // Tells a pass that has seen the whole history of the disk's count.
    fn tell(&mut self, words: &Words, pass: &mut Pass<N>, faults: u64) -> u64
        requires table { (words.now.table_id ≡ N.terms.table) × (N.terms.table.words ≡ 2) }
        requires met { pass.old.since ≡ self.old.book.seen }
        requires faults { faults ≡ (D.seen self.old.store.journal.disk).faults }
        ensures pass { IsPass N.terms pass.new }
        ensures later { IsLater pass.old pass.new }
        ensures since { pass.new.since ≡ pass.old.since }
        ensures made { pass.new.made ≡ pass.old.made }
        ensures told { (faults ≤ result) × (result ≡ pass.new.told) }
        ensures store { self.new.store ≡ self.old.store }
    {
        mark(words, &mut self.book, faults);
        let back = note(words, &mut self.book);
        pass.learn(words, back);
        pass.read(words)
    }
}

// Enters the entry that the store has answered into the history.
fn enter_one<E: Following, N: GateName>(
    words: &Words,
    book: &mut GateSeat,
    pass: &mut Pass<N>,
    of: &Snapshot<Event>,
    done: &Done,
)
    requires table { (words.now.table_id ≡ N.terms.table) × (N.terms.table.words ≡ 2) }
    requires book { IsBookSeat N.terms book.old.table_id book.old.me }
    requires met { pass.old.since ≡ book.old.me.0.seen }
    requires few { length pass.old.since < 2 ^ 48 }
    requires entry { E.entries ≡ record { caller = done.now.caller; event = of.now.value; at = done.now.at; reply = done.now.reply } ∷ [] }
    requires by { done.now.caller ≡ pass.old.number }
    requires of_gate { IsOfGate N.terms (E.entries ++ pass.old.since) }
    ensures pass { IsPass N.terms pass.new }
    ensures grown { pass.new ≡ grown (record { caller = done.now.caller; event = of.now.value; at = done.now.at; reply = done.now.reply } ∷ []) pass.old }
    ensures book { IsEntered (record { caller = done.now.caller; event = of.now.value; at = done.now.at; reply = done.now.reply } ∷ [])
        book.new.table_id book.old.table_id book.new.me book.old.me }
{
    let (_of, _done) = (of, done);
    enter::<E, N>(words, book, pass, 1);
}

// Enters the entries that the store has answered to the first events of a batch, where there are any, into the history.
fn enter_all<E: Following, N: GateName>(
    words: &Words,
    book: &mut GateSeat,
    pass: &mut Pass<N>,
    of: &Snapshot<Batch>,
    done: &Dones,
)
    requires table { (words.now.table_id ≡ N.terms.table) × (N.terms.table.words ≡ 2) }
    requires book { IsBookSeat N.terms book.old.table_id book.old.me }
    requires pass { IsPass N.terms pass.old }
    requires met { pass.old.since ≡ book.old.me.0.seen }
    requires few { 0 < length done.now → length pass.old.since < 2 ^ 48 }
    requires entries { E.entries ≡ told_entries (take (length done.now) of.now.value) done.now }
    requires count { (length done.now ≤ length of.now.value) × (length done.now ≤ 64) }
    requires by { All (λ d. d.caller ≡ pass.old.number) done.now }
    requires of_gate { IsOfGate N.terms (E.entries ++ pass.old.since) }
    ensures pass { IsPass N.terms pass.new }
    ensures grown { pass.new ≡ grown (told_entries (take (length done.now) of.now.value) done.now) pass.old }
    ensures book { IsEntered (told_entries (take (length done.now) of.now.value) done.now)
        book.new.table_id book.old.table_id book.new.me book.old.me }
{
    let _of = of;
    let count = done.count();
    if count > 0 {
        enter::<E, N>(words, book, pass, count as u64);
    }
}

// Enters so many entries that the store has answered into the history: the book names them, the pass appends them in one step, and the book
// sees them. Nothing here can fail.
fn enter<E: Following, N: GateName>(
    words: &Words,
    book: &mut GateSeat,
    pass: &mut Pass<N>,
    count: u64,
)
    requires table { (words.now.table_id ≡ N.terms.table) × (N.terms.table.words ≡ 2) }
    requires book { IsBookSeat N.terms book.old.table_id book.old.me }
    requires met { pass.old.since ≡ book.old.me.0.seen }
    requires few { length pass.old.since < 2 ^ 48 }
    requires count { (length E.entries ≡ count) × (0 < count) × (count ≤ 64) }
    requires by { AreBy pass.old.number E.entries }
    requires of_gate { IsOfGate N.terms (E.entries ++ pass.old.since) }
    ensures pass { IsPass N.terms pass.new }
    ensures grown { pass.new ≡ grown E.entries pass.old }
    ensures book { IsEntered E.entries book.new.table_id book.old.table_id book.new.me book.old.me }
{
    let named = name::<E>(words, book);
    pass.append::<E>(words, named, count);
    let shown = pass.note(words);
    catch(words, book, shown);
}
