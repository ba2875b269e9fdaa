// The operators that a text declares, by name.
ghost use Rattle.std.specs.Prelude.{◌≡◌, ◌++◌, [], ◌∷◌, length, None, IfOk, OnOk};
ghost use Rattle.std.specs.Option.{option_copied};
ghost use Rattle.accounts.specs.Entries.{find_name};

use crate::operator::Operator;
use arc_data::Txt;
use indexmap::IndexMap;
use std::alloc::{AllocError, Global};
use std::marker::Model;

/// An operator, and the number of the line that declares it.
#[derive(Clone, Copy)]
pub(crate) struct OperatorEntry {
    pub operator: Operator,
    pub line: u64,
}

/// Operators in the order of their lines, no two of one name. Contracts see them as a list.
#[derive(Drop)]
pub(crate) struct OperatorTable {
    by_name: IndexMap<Txt, OperatorEntry>,
}

impl Model for OperatorTable {
    ghost use Rattle.std.specs.Prelude.{List};
    ghost use Rattle.accounts.specs.declared.operator_table.OperatorEntry.{OperatorEntry};
    ghost use Rattle.accounts.specs.Entries.{operator_name};
    ghost use Rattle.accounts.specs.Keyed.{IsKeyed};
    ghost use Rattle.indexmap.specs.IndexMap.{values};

    ghost Value = { List OperatorEntry };

    ghost view = { λ t. values t.by_name };

    ghost invariant = { λ t. IsKeyed operator_name t.by_name.entries };
}

impl OperatorTable {
    /// No operators. Takes no memory.
    pub(crate) fn new(alloc: Global) -> OperatorTable
        ensures { result ≡ [] }
    {
        OperatorTable {
            by_name: IndexMap::new(alloc),
        }
    }

    /// How many there are.
    pub(crate) fn count(&self) -> usize
        ensures { result ≡ length self.now }
    {
        self.by_name.len()
    }

    /// The operator with this name.
    pub(crate) fn find(&self, name: &Txt) -> Option<&OperatorEntry>
        ensures { option_copied result ≡ find_name name.now self.now }
    {
        self.by_name.get(name)
    }

    /// Puts an operator last whose name none has yet.
    pub(crate) fn push(&mut self, operator: Operator, line: u64) -> Result<(), AllocError>
        requires { find_name operator.name self.old ≡ None }
        ensures { OnOk result (self.new ≡ self.old ++ record { operator = operator; line = line } ∷ []) }
    {
        self.by_name
            .insert(operator.name, OperatorEntry { operator, line })?;
        Ok(())
    }

    /// A copy.
    pub(crate) fn copy(&self) -> Result<OperatorTable, AllocError>
        ensures { IfOk result (λ table. table ≡ self.now) }
    {
        Ok(OperatorTable {
            by_name: self.by_name.clone()?,
        })
    }
}
