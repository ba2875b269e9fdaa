// Rows that are put as they are, read by their accounts in order, and copied.
ghost use Rattle.std.specs.Prelude.{◌≡◌, ◌++◌, ◌∷◌, [], List, ℕ, false, is_some, IfOk, IfSome, OnOk};
ghost use Rattle.std.specs.List.{list_any, IsDistinct};
ghost use Rattle.std.specs.Str.{bytes_eq};
ghost use Rattle.indexmap.specs.IndexMap.{keys};
ghost use Rattle.centre_rules.specs.Marks.{has_row};
ghost use Rattle.centre_rules.specs.Sums.{AscendByBytes};
ghost use Rattle.known_accounts.specs.Rows.{row_at, row_in};

use crate::account_rows::AccountRows;
use crate::row::Row;
use arc_data::{Memory, Txt};
use indexmap::IndexMap;
use std::alloc::Global;

impl AccountRows {
    /// Nothing is known but the last Start. Takes no memory.
    pub fn started(alloc: Global, start: Option<u64>) -> AccountRows
        ensures { result ≡ record { start = start; rows = []; room = 0 } }
    {
        let mut rows = AccountRows::new(alloc);
        rows.start = start;
        rows
    }

    /// Puts a row last, of an account that has none. The memory that was taken for further accounts is given back. The error is
    /// want of memory.
    pub fn put(&mut self, account: Txt, row: Row) -> Result<(), Memory>
        requires { has_row self.old.rows account ≡ false }
        ensures start { self.new.start ≡ self.old.start }
        ensures rows { OnOk result (self.new.rows ≡ self.old.rows ++ row_at (account, row) ∷ []) }
    {
        self.windows.clear();
        match self.by_account.insert(account, row) {
            Ok(_) => Ok(()),
            Err(_) => Err(Memory),
        }
    }

    /// The row of an account, where it has one.
    pub fn get(&self, account: &Txt) -> Option<&Row>
        ensures found { is_some result ≡ has_row self.now.rows account.now }
        ensures row { IfSome result (λ row. row_in self.now account.now ≡ row_at (account.now, row.now)) }
    {
        match self.by_account.get(account) {
            Some(row) => Some(row),
            None => None,
        }
    }

    /// The accounts that have a row, ascending by bytes. The error is want of memory.
    pub fn accounts(&self, alloc: Global) -> Result<Vec<Txt>, Memory>
        ensures all { IfOk result (λ v. (a : List ℕ) → list_any (λ x. bytes_eq x a) v.items ≡ has_row self.now.rows a) }
        ensures ascend { IfOk result (λ v. AscendByBytes v.items) }
    {
        let mut accounts = keys_of(alloc, &self.by_account)?;
        in_order(&mut accounts);
        Ok(accounts)
    }

    /// A copy of it. The error is want of memory.
    pub fn copy(&self, alloc: Global) -> Result<AccountRows, Memory>
        ensures start { IfOk result (λ rows. rows.start ≡ self.now.start) }
        ensures rows { IfOk result (λ rows. rows.rows ≡ self.now.rows) }
    {
        let mut copy = AccountRows::started(alloc, self.start);
        for place in 0..self.by_account.len() {
            let Some((account, row)) = self.by_account.get_index(place) else {
                unreachable!()
            };
            let row = row.copy(alloc)?;
            copy.put(*account, row)?;
        }
        Ok(copy)
    }
}

// The accounts of a map, none of which stands there twice.
fn keys_of(alloc: Global, rows: &IndexMap<Txt, Row>) -> Result<Vec<Txt>, Memory>
    ensures all { IfOk result (λ v. v.items ≡ keys rows.now) }
    ensures distinct { IfOk result (λ v. IsDistinct bytes_eq v.items) }
{
    match rows.keys().copied().collect(alloc) {
        Ok(accounts) => Ok(accounts),
        Err(_) => Err(Memory),
    }
}

// Puts accounts in order by bytes.
fn in_order(accounts: &mut Vec<Txt>)
    requires { IsDistinct bytes_eq accounts.old.items }
    ensures same { (a : List ℕ) → list_any (λ x. bytes_eq x a) accounts.new.items ≡ list_any (λ x. bytes_eq x a) accounts.old.items }
    ensures ascend { AscendByBytes accounts.new.items }
{
    accounts.sort_unstable_by(|a, b| a.bytes().cmp(b.bytes()));
}
