// What a setup keeps of an account.
ghost use Rattle.std.specs.Prelude.{◌≡◌, length, nat_lt, OnOk};
ghost use Rattle.std.specs.Bool.{OnTrue};
ghost use Rattle.accounts.specs.Entries.{new_entry, with_window, with_keyholder, with_plan};
ghost use Rattle.accounts.specs.Said.{IsValidWindow};

use crate::account::Account;
use crate::keyholders::{Keyholder, Keyholders};
use crate::line::AccountLine;
use crate::plan_list::{ClassPlan, PlanList};
use arc_data::{Txt, Window};
use civil_time::Zone;
use open_schedules::Week;
use std::alloc::{AllocError, Global};

/// An account with the number of the line that declares it, its keyholders and its plans.
#[derive(Clone, Drop)]
pub(crate) struct Entry {
    pub account: Account,
    pub line: u64,
    pub keyholders: Keyholders,
    pub plans: PlanList,
}

impl Entry {
    /// That of an account of which no line says more than its own. One without a zone is at GMT: where a text is no rule its line is
    /// refused before. Takes no memory.
    pub(crate) fn new(alloc: Global, account: AccountLine, line: u64) -> Entry
        ensures { result ≡ new_entry account line }
    {
        Entry {
            account: Account {
                number: account.number,
                key: account.key,
                beat: account.beat,
                week: Week::new(account.zone.unwrap_or(Zone::fixed(0))),
                holders: 0,
            },
            line,
            keyholders: Keyholders::new(),
            plans: PlanList::new(alloc),
        }
    }

    /// Puts a window last in its opening hours. False exactly where 28 are there.
    pub(crate) fn add_window(&mut self, window: Window) -> bool
        requires { IsValidWindow window }
        ensures room { result ≡ nat_lt (length self.old.account.week.windows) 28 }
        ensures added { OnTrue result (self.new ≡ with_window window self.old) }
        ensures number { self.new.account.number ≡ self.old.account.number }
    {
        self.account
            .week
            .add(window.weekday, window.from, window.to)
    }

    /// Puts a keyholder last. False exactly where four are there.
    pub(crate) fn add_keyholder(&mut self, keyholder: Keyholder) -> bool
        ensures room { result ≡ nat_lt (length self.old.keyholders) 4 }
        ensures added { OnTrue result (self.new ≡ with_keyholder keyholder self.old) }
        ensures number { self.new.account.number ≡ self.old.account.number }
    {
        if !self.keyholders.push(keyholder.name, keyholder.line) {
            return false;
        }
        self.account.holders = self.keyholders.count();
        true
    }

    /// Puts a plan last.
    pub(crate) fn add_plan(&mut self, plan: ClassPlan) -> Result<(), AllocError>
        ensures added { OnOk result (self.new ≡ with_plan plan self.old) }
        ensures number { self.new.account.number ≡ self.old.account.number }
    {
        self.plans.push(plan)
    }

    /// The number of the account.
    pub(crate) fn number(&self) -> Txt
        ensures { result ≡ self.now.account.number }
    {
        self.account.number
    }
}
