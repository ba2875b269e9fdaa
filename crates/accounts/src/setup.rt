// A setup: its text and what the text means.
ghost use Rattle.std.specs.Prelude.{◌≡◌, ◌≤◌, ◌<◌, ◌⊎◌, [], ◌∷◌, length, slice_get, false, Err, Some, IfErr, IfOk, IfSome, IsOk, OnOk};
ghost use Rattle.std.specs.Option.{option_map};
ghost use Rattle.alarm_rules.specs.Setups.{setup_of, meaning, account_of, place_of, has_account, key_of, operator_of, plan_of};
ghost use Rattle.accounts.specs.Accounts.{defined};
ghost use Rattle.accounts.specs.Said.{said_operator};

use crate::account::Account;
use crate::operator::Operator;
use crate::reading::read_table;
use crate::table::Table;
use action_plans::Plan;
use aes_chain::Key;
use arc_data::{Blob, Class, Memory, PlanWord, SetupFault, Txt};
use std::alloc::Global;
use std::marker::Model;

/// The most bytes of a setup text.
const TEXT_LIMIT: usize = 4_194_304;

/// The setup of a station. Contracts see it as its text, which is a setup text of at most 4,194,304 bytes.
pub struct Setup {
    text: Blob,
    table: Table,
}

// Written out: one call wherever one is dropped, where a derived drop is spelled out at each exit.
impl Drop for Setup {
    fn drop(self) {
        let Setup { text, table } = self;
        drop(text);
        drop(table);
    }
}

impl Model for Setup {
    ghost use Rattle.std.specs.Prelude.{ℕ, List};
    ghost use Rattle.accounts.specs.Accounts.{IsReadFrom};

    ghost Value = { List ℕ };

    ghost view = { λ s. s.text };

    ghost invariant = { λ s. IsReadFrom s.text s.table };
}

impl Setup {
    /// The setup that a text means, or its fault: that it has more than 4,194,304 bytes, else the fault of the first line
    /// that has one. `Memory` comes only for want of memory, and says nothing of the text.
    pub fn read(alloc: Global, text: &[u8]) -> Result<Setup, SetupFault>
        ensures ok { IfOk result (λ setup. setup ≡ text.now) }
        ensures valid { OnOk result (IsOk (setup_of text.now)) }
        ensures fault { IfErr result (λ fault. (fault ≡ SetupFault.Memory) ⊎ (setup_of text.now ≡ Err fault)) }
    {
        if text.len() > TEXT_LIMIT {
            return Err(SetupFault::TooLarge);
        }
        let table = read_table(alloc, text)?;
        match Blob::of(alloc, text) {
            Ok(text) => Ok(Setup { text, table }),
            Err(_) => Err(SetupFault::Memory),
        }
    }

    /// Its text.
    pub fn text(&self) -> &[u8]
        ensures value { result.now ≡ self.now }
        ensures valid { IsOk (setup_of result.now) }
        ensures size { length result.now ≤ 4194304 }
    {
        self.text.bytes()
    }

    /// A copy of it. The error is want of memory.
    pub fn copy(&self, alloc: Global) -> Result<Setup, Memory>
        ensures { IfOk result (λ setup. setup ≡ self.now) }
    {
        let text = Blob::of(alloc, self.text.bytes())?;
        match self.table.copy() {
            Ok(table) => Ok(Setup { text, table }),
            Err(_) => Err(Memory),
        }
    }

    /// How many accounts it has.
    pub fn count(&self) -> usize
        ensures value { result ≡ length (meaning self.now).accounts }
        ensures few { result ≤ 2000 }
    {
        self.table.accounts.count()
    }

    /// The place of an account, in the order of the lines, from 0. The account is given in capitals.
    pub fn place(&self, account: &Txt) -> Option<usize>
        ensures place { result ≡ place_of (meaning self.now) account.now }
        ensures within { IfSome result (λ place. place < length (meaning self.now).accounts) }
        ensures there { IfSome result (λ place. slice_get (meaning self.now).accounts place ≡ account_of (meaning self.now) account.now) }
        ensures number { IfSome result (λ place. IfSome (slice_get (meaning self.now).accounts place) (λ found. found.number ≡ account.now)) }
    {
        self.table.accounts.place(account)
    }

    /// Whether it has an account, which is given in capitals.
    pub fn knows(&self, account: &Txt) -> bool
        ensures { result ≡ has_account (meaning self.now) account.now }
    {
        self.table.accounts.find(account).is_some()
    }

    /// The key of an account, which is given in capitals. None where the setup lacks the account or the account has no
    /// key. Takes no memory.
    pub fn key(&self, account: &Txt) -> Option<&Key>
        ensures { option_map (λ k. k.now) result ≡ key_of (meaning self.now) account.now }
    {
        self.table.accounts.find(account)?.account.key.as_ref()
    }

    /// The account at a place below the count.
    pub fn account(&self, place: usize) -> &Account
        requires { place < length (meaning self.now).accounts }
        ensures value { slice_get (meaning self.now).accounts place ≡ Some (defined result.now) }
        ensures holders { result.now.holders ≤ 4 }
    {
        &self.table.accounts.at(place).account
    }

    /// The operator of a name.
    pub fn operator(&self, name: &Txt) -> Option<&Operator>
        ensures { option_map (λ o. said_operator o.now) result ≡ operator_of (meaning self.now) name.now }
    {
        match self.table.operators.find(name) {
            Some(entry) => Some(&entry.operator),
            None => None,
        }
    }

    /// After how many seconds a hold lapses, where a line says so. Takes no memory.
    pub fn lapse(&self) -> Option<u64>
        ensures { result ≡ (meaning self.now).lapse }
    {
        match self.table.lapse {
            Some(entry) => Some(entry.seconds),
            None => None,
        }
    }

    /// The plan of the account at a place below the count for a class: its own, or else that of all accounts, or else the one
    /// word `note`.
    pub fn plan(&self, place: usize, class: Class) -> Plan
        requires { place < length (meaning self.now).accounts }
        ensures { IfSome (slice_get (meaning self.now).accounts place)
            (λ account. result ≡ plan_of (meaning self.now) account.number class) }
    {
        let own = self.table.accounts.at(place).plans.plan(class);
        let general = self.table.plans.plan(class);
        own.or(general).unwrap_or(note())
    }
}

/// The plan of the one word `note`.
fn note() -> Plan
    ensures { result ≡ record { word = PlanWord.Note; closed = false } ∷ [] }
{
    let mut plan = Plan::new();
    let _ = plan.add(PlanWord::Note, false);
    plan
}
