// A gate that has no name yet.
ghost use Rattle.std.specs.Prelude.{◌≡◌, List, Some, IfOk, IfErr};
ghost use Rattle.centre_core.specs.Setting.{IsSetting};

use crate::steps::new_pass;
use crate::view::{GateSeat, GateTable};
use arc_io::Disk;
use centre_core::{Hall, Setup};
use centre_store::Store;
use std::alloc::Global;
use std::marker::Model;

/// A gate that has no name yet. It has all the memory that the gate needs.
#[derive(Drop)]
pub struct Blank<D: Disk> {
    pub(crate) store: Store<D>,
    pub(crate) table: GateTable,
    pub(crate) book: GateSeat,
    pub(crate) first: GateSeat,
    pub(crate) setup: Setup,
}

impl<D: Disk> Model for Blank<D> {
    ghost use Rattle.line_gate.specs.Blanks.{BlankSeen, IsBlank};

    ghost Value = { BlankSeen D };

    ghost view = { λ b. record { table = b.table.shared.table_id; store = b.store; text = b.setup } };

    ghost invariant = { λ b. IsBlank b.table.shared.table_id b.book.table_id b.first.table_id b.book.me b.first.me b.store b.setup };
}

/// There was no memory for a gate. The store comes back.
#[derive(Drop)]
pub struct GateRefused<D: Disk> {
    pub store: Store<D>,
}

impl<D: Disk> Blank<D> {
    /// A gate before a store on which a run has begun. The error is want of memory.
    pub fn new(alloc: Global, store: Store<D>) -> Result<Blank<D>, GateRefused<D>>
        requires begun { IsSetting store.state.sum.text }
        ensures ok { IfOk result (λ b. b.store ≡ store) }
        ensures text { IfOk result (λ b. Some b.text ≡ store.state.sum.text) }
        ensures refused { IfErr result (λ r. r.store ≡ store) }
    {
        let Ok(setup) = store.setup().copy(alloc) else {
            return Err(GateRefused { store });
        };
        let Ok((table, mut book)) = GateTable::of_words(alloc, &[0, 0], &()) else {
            return Err(GateRefused { store });
        };
        let first = new_pass(&table.shared, &mut book);
        Ok(Blank {
            store,
            table,
            book,
            first,
            setup,
        })
    }
}
