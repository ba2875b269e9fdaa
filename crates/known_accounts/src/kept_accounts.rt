// What is known of accounts, taken as it is, and copied.
ghost use Rattle.std.specs.Prelude.{◌≡◌, IfOk};
ghost use Rattle.known_accounts.specs.Supervised.{AreOpenedAtMoments};

use crate::account_rows::AccountRows;
use crate::deadlines::Deadlines;
use crate::supervised_accounts::SupervisedAccounts;
use crate::watched_setup::WatchedSetup;
use accounts::Setup;
use arc_data::Memory;
use std::alloc::Global;

impl SupervisedAccounts {
    /// What is known of accounts, and the setup in force, or none. Takes no memory.
    pub fn of(alloc: Global, watched: Option<WatchedSetup>, rows: AccountRows) -> SupervisedAccounts
        requires { AreOpenedAtMoments rows }
        ensures text { result.text ≡ watched }
        ensures rows { result.rows ≡ rows }
    {
        let mut accounts = SupervisedAccounts {
            setup: None,
            rows,
            deadlines: Deadlines::new(alloc),
        };
        match watched {
            Some(watched) => accounts.adopt(watched),
            None => {}
        }
        accounts
    }

    /// A copy of it. The error is want of memory.
    pub fn copy(&self, alloc: Global) -> Result<SupervisedAccounts, Memory>
        ensures text { IfOk result (λ copy. copy.text ≡ self.now.text) }
        ensures start { IfOk result (λ copy. copy.rows.start ≡ self.now.rows.start) }
        ensures rows { IfOk result (λ copy. copy.rows.rows ≡ self.now.rows.rows) }
    {
        let watched = copied(alloc, &self.setup)?;
        let rows = self.rows.copy(alloc)?;
        Ok(SupervisedAccounts::of(alloc, watched, rows))
    }
}

// A setup once more, with memory for the deadlines of its accounts.
fn copied(alloc: Global, setup: &Option<Setup>) -> Result<Option<WatchedSetup>, Memory>
    ensures { IfOk result (λ copy. copy ≡ setup.now) }
{
    let Some(setup) = setup else {
        return Ok(None);
    };
    let copy = setup.copy(alloc)?;
    Ok(Some(WatchedSetup::of(alloc, copy)?))
}
