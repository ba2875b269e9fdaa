// What a caller holds.
ghost use Rattle.std.specs.Prelude.{◌≡◌, ◌≤◌, ◌<◌, ◌^◌, ◌++◌, [], Some, true, false, max, length};
ghost use Rattle.line_gate.specs.Entries.{Extends, AreBy};
ghost use Rattle.line_gate.specs.Views.{settled, note_of};
ghost use Rattle.line_gate.specs.Terms.{IsOfGate};
ghost use Rattle.line_gate.specs.Passes.{IsPass, IsLater, grown, told_at};
ghost use Rattle.line_gate.specs.UnderLock.{IsBookSeat};

use crate::name::GateName;
use crate::steps::{append, learn, note, read, take};
use crate::view::{Following, GateSeat, Words};
use std::marker::{Model, PhantomData};

/// A caller's token at a gate. It stands for what the caller has seen of the history and for the entries that it made. Contracts
/// see these, its number, and what it was told.
#[derive(Drop)]
pub struct Pass<N: GateName> {
    pub(crate) number: u64,
    pub(crate) seat: GateSeat,
    pub(crate) of: PhantomData<N>,
}

impl<N: GateName> Model for Pass<N> {
    ghost use Rattle.line_gate.specs.Passes.{PassSeen, pass_seen, IsSeated};

    ghost Value = { PassSeen };

    ghost view = { λ p. pass_seen p.number p.seat.me.0 };

    ghost invariant = { λ p. IsSeated N.terms p.number p.seat.table_id p.seat.me };
}

impl<N: GateName> Pass<N> {
    /// The caller's number.
    pub fn number(&self) -> u64
        ensures number { result ≡ self.now.number }
        ensures pass { IsPass N.terms self.now }
    {
        self.number
    }

    // Cuts a note off it.
    pub(crate) fn note(&mut self, words: &Words) -> GateSeat
        requires table { (words.now.table_id ≡ N.terms.table) × (N.terms.table.words ≡ 2) }
        ensures pass { self.new ≡ self.old }
        ensures note { (result.table_id ≡ N.terms.table) × (result.me.1 ≡ []) × (result.me.0.book ≡ false) × (result.me.0.named ≡ []) }
        ensures knows { (result.me.0.seen ≡ self.old.since) × (result.me.0.count ≡ self.old.count) × (result.me.0.told ≡ self.old.told) }
        ensures of_gate { IsOfGate N.terms result.me.0.seen }
    {
        note(words, &mut self.seat)
    }

    // It takes in a note, or the seat of another pass: it has then seen what either had.
    pub(crate) fn learn(&mut self, words: &Words, other: GateSeat)
        requires table { (words.now.table_id ≡ N.terms.table) × (other.table_id ≡ N.terms.table) × (N.terms.table.words ≡ 2) }
        requires other { other.me.1 ≡ [] }
        requires of_gate { IsOfGate N.terms other.me.0.seen }
        ensures pass { IsPass N.terms self.new }
        ensures later { IsLater self.old self.new }
        ensures made { self.new.made ≡ self.old.made }
        ensures since { Extends other.me.0.seen self.new.since }
        ensures all { Extends self.old.since other.me.0.seen → self.new.since ≡ other.me.0.seen }
        ensures count { self.new.count ≡ max self.old.count other.me.0.count }
        ensures told { self.new.told ≡ max self.old.told other.me.0.told }
    {
        learn(words, &mut self.seat, other);
    }

    // It takes in the note that names entries, and appends the first of them, so many, in one step.
    pub(crate) fn append<E: Following>(&mut self, words: &Words, named: GateSeat, count: u64)
        requires table { (words.now.table_id ≡ N.terms.table) × (named.table_id ≡ N.terms.table) × (N.terms.table.words ≡ 2) }
        requires named { (named.me.0.book ≡ false) × (named.me.0.seen ≡ self.old.since) × (named.me.1 ≡ []) }
        requires first { Extends E.entries named.me.0.named }
        requires count { (length E.entries ≡ count) × (0 < count) × (count ≤ 64) }
        requires by { AreBy self.old.number E.entries }
        requires few { length self.old.since < 2 ^ 48 }
        requires of_gate { IsOfGate N.terms (E.entries ++ self.old.since) }
        ensures appended { self.new ≡ grown E.entries self.old }
        ensures pass { IsPass N.terms self.new }
    {
        take(words, &mut self.seat, named);
        append::<E>(words, &mut self.seat, self.number, count);
    }

    // It reads the greatest count of disk faults that was told.
    pub(crate) fn read(&mut self, words: &Words) -> u64
        requires table { (words.now.table_id ≡ N.terms.table) × (N.terms.table.words ≡ 2) }
        ensures told { self.new ≡ told_at result self.old }
        ensures more { self.old.told ≤ result }
        ensures pass { IsPass N.terms self.new }
    {
        read(words, &mut self.seat)
    }
}
