// What the lines of a text declare.
ghost use Rattle.std.specs.Prelude.{◌≡◌, [], Some, None, Err, IfOk};
ghost use Rattle.accounts.specs.Said.{said, said_account, said_hours, said_keyholder, said_plan, said_operator, IsValid, IsValidWindow};
ghost use Rattle.accounts.specs.Standing.{IsTaken, plan_said};
ghost use Rattle.alarm_rules.specs.SetupLines.{OfAccount, OfHours, OfKeyholder, OfPlan, OfOperator, OfLapse};

use crate::account_table::AccountTable;
use crate::entry::Entry;
use crate::keyholders::Keyholder;
use crate::line::{AccountLine, HoursLine, KeyholderLine, Line, PlanLine};
use crate::operator::Operator;
use crate::operator_table::OperatorTable;
use crate::plan_list::{ClassPlan, PlanList};
use arc_data::{LineKind, SetupFault, Txt};
use std::alloc::{AllocError, Global};

/// The most accounts and operators of a setup, and keyholders and windows of an account.
const ACCOUNT_LIMIT: usize = 2000;

const OPERATOR_LIMIT: usize = 64;

const KEYHOLDER_LIMIT: u64 = 4;

const WINDOW_LIMIT: u64 = 28;

/// After how many seconds a hold lapses, and the number of the line that says so.
#[derive(Clone, Copy)]
pub(crate) struct LapseEntry {
    pub seconds: u64,
    pub line: u64,
}

/// What the lines of a text declare. The plans are those of all accounts that have none of their own.
pub(crate) struct Table {
    pub accounts: AccountTable,
    pub plans: PlanList,
    pub operators: OperatorTable,
    pub lapse: Option<LapseEntry>,
}

// Written out: one call wherever one is dropped, where a derived drop is spelled out at each exit.
impl Drop for Table {
    fn drop(self) {
        let Table {
            accounts,
            plans,
            operators,
            lapse: _,
        } = self;
        drop(accounts);
        drop(plans);
        drop(operators);
    }
}

impl Table {
    /// Nothing. Takes no memory.
    pub(crate) fn new(alloc: Global) -> Table
        ensures { result ≡ record { accounts = []; plans = []; operators = []; lapse = None } }
    {
        Table {
            accounts: AccountTable::new(alloc),
            plans: PlanList::new(alloc),
            operators: OperatorTable::new(alloc),
            lapse: None,
        }
    }

    /// Takes up what the line of this number says, or tells its fault after the lines before it.
    pub(crate) fn take(&mut self, alloc: Global, number: u64, line: Line) -> Result<(), SetupFault>
        requires { IsValid line }
        ensures { IsTaken self.old number (Some (said line)) result self.new }
    {
        match line {
            Line::Skipped => Ok(()),
            Line::Account(account) => self.take_account(alloc, number, account),
            Line::Hours(hours) => self.take_hours(number, hours),
            Line::Keyholder(keyholder) => self.take_keyholder(number, keyholder),
            Line::Plan(plan) => self.take_plan(number, plan),
            Line::Operator(operator) => self.take_operator(number, operator),
            Line::Lapse(seconds) => self.take_lapse(number, seconds),
        }
    }

    fn take_account(
        &mut self,
        alloc: Global,
        number: u64,
        account: AccountLine,
    ) -> Result<(), SetupFault>
        ensures { IsTaken self.old number (Some (OfAccount (said_account account))) result self.new }
    {
        if account.zone.is_none() {
            return bad_zone(number);
        }
        if let Some(same) = self.accounts.find(&account.number) {
            return two_same(number, same.line);
        }
        if self.accounts.count() >= ACCOUNT_LIMIT {
            return too_many(number, ACCOUNT_LIMIT as u64);
        }
        let entry = Entry::new(alloc, account, number);
        match self.accounts.push(entry) {
            Ok(()) => Ok(()),
            Err(_) => Err(SetupFault::Memory),
        }
    }

    fn take_hours(&mut self, number: u64, hours: HoursLine) -> Result<(), SetupFault>
        requires { IsValidWindow hours.window }
        ensures { IsTaken self.old number (Some (OfHours (said_hours hours))) result self.new }
    {
        let Some(place) = self.accounts.place(&hours.account) else {
            return no_account(number);
        };
        if self.accounts.add_window(place, hours.window) {
            Ok(())
        } else {
            too_many(number, WINDOW_LIMIT)
        }
    }

    fn take_keyholder(&mut self, number: u64, keyholder: KeyholderLine) -> Result<(), SetupFault>
        ensures { IsTaken self.old number (Some (OfKeyholder (said_keyholder keyholder))) result self.new }
    {
        let Some(place) = self.accounts.place(&keyholder.account) else {
            return no_account(number);
        };
        let name = keyholder.name;
        if let Some(first) = self.accounts.at(place).keyholders.line_of(&name) {
            return two_same(number, first);
        }
        if self
            .accounts
            .add_keyholder(place, Keyholder { name, line: number })
        {
            Ok(())
        } else {
            too_many(number, KEYHOLDER_LIMIT)
        }
    }

    fn take_plan(&mut self, number: u64, line: PlanLine) -> Result<(), SetupFault>
        ensures { IsTaken self.old number (Some (OfPlan (said_plan line))) result self.new }
    {
        let plan = ClassPlan {
            class: line.class,
            plan: line.plan,
            line: number,
        };
        match line.account {
            Some(account) => self.take_plan_of(&account, plan),
            None => self.take_plan_of_all(plan),
        }
    }

    /// Takes up the plan of an account, which stands in the line that it names.
    fn take_plan_of(&mut self, account: &Txt, plan: ClassPlan) -> Result<(), SetupFault>
        ensures { IsTaken self.old plan.line (Some (plan_said (Some account.now) plan)) result self.new }
    {
        let Some(place) = self.accounts.place(account) else {
            return no_account(plan.line);
        };
        if let Some(same) = self.accounts.at(place).plans.find(plan.class) {
            return two_same(plan.line, same.line);
        }
        match self.accounts.add_plan(place, plan) {
            Ok(()) => Ok(()),
            Err(_) => Err(SetupFault::Memory),
        }
    }

    /// Takes up a plan of all accounts that have none of their own.
    fn take_plan_of_all(&mut self, plan: ClassPlan) -> Result<(), SetupFault>
        ensures { IsTaken self.old plan.line (Some (plan_said None plan)) result self.new }
    {
        if let Some(same) = self.plans.find(plan.class) {
            return two_same(plan.line, same.line);
        }
        match self.plans.push(plan) {
            Ok(()) => Ok(()),
            Err(_) => Err(SetupFault::Memory),
        }
    }

    fn take_operator(&mut self, number: u64, operator: Operator) -> Result<(), SetupFault>
        ensures { IsTaken self.old number (Some (OfOperator (said_operator operator))) result self.new }
    {
        if let Some(same) = self.operators.find(&operator.name) {
            return two_same(number, same.line);
        }
        if self.operators.count() >= OPERATOR_LIMIT {
            return too_many(number, OPERATOR_LIMIT as u64);
        }
        match self.operators.push(operator, number) {
            Ok(()) => Ok(()),
            Err(_) => Err(SetupFault::Memory),
        }
    }

    fn take_lapse(&mut self, number: u64, seconds: u64) -> Result<(), SetupFault>
        ensures { IsTaken self.old number (Some (OfLapse seconds)) result self.new }
    {
        if let Some(same) = self.lapse {
            return two_same(number, same.line);
        }
        self.lapse = Some(LapseEntry {
            seconds,
            line: number,
        });
        Ok(())
    }

    /// A copy.
    pub(crate) fn copy(&self) -> Result<Table, AllocError>
        ensures { IfOk result (λ table. table ≡ self.now) }
    {
        Ok(Table {
            accounts: self.accounts.copy()?,
            plans: self.plans.clone()?,
            operators: self.operators.copy()?,
            lapse: self.lapse,
        })
    }
}

/// The text that names the zone of the account is no rule.
fn bad_zone(line: u64) -> Result<(), SetupFault>
    ensures { result ≡ Err (SetupFault.BadLine line LineKind.BadZone) }
{
    let kind = LineKind::BadZone;
    Err(SetupFault::BadLine { line, kind })
}

/// The line names an account that no earlier line declares.
fn no_account(line: u64) -> Result<(), SetupFault>
    ensures { result ≡ Err (SetupFault.BadLine line LineKind.NoAccount) }
{
    let kind = LineKind::NoAccount;
    Err(SetupFault::BadLine { line, kind })
}

/// The line declares what an earlier one does.
fn two_same(line: u64, first: u64) -> Result<(), SetupFault>
    ensures { result ≡ Err (SetupFault.TwoSame line first) }
{
    Err(SetupFault::TwoSame { line, first })
}

/// The line is one more than there may be.
fn too_many(line: u64, limit: u64) -> Result<(), SetupFault>
    ensures { result ≡ Err (SetupFault.TooMany line limit) }
{
    Err(SetupFault::TooMany { line, limit })
}
