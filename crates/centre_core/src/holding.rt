// Who holds an open incident at a moment, by the setup in force.
ghost use Rattle.std.specs.Prelude.{◌≡◌, [], ℕ, List, IsSome};
ghost use Rattle.std.specs.List.{find};
ghost use Rattle.arc_data.specs.Incidents.{has_number};
ghost use Rattle.centre_rules.specs.Marks.{lapse};
ghost use Rattle.centre_rules.specs.Summary.{Summary};
ghost use Rattle.centre_rules.specs.History.{Entry, marks};
ghost use Rattle.centre_rules.specs.Standing.{holder_then};
ghost use Rattle.centre_rules.specs.State.{StandsFor};

use crate::centre::Centre;
use arc_data::Txt;
use known_accounts::SupervisedAccounts;
use open_incidents::standing::holder_at;

impl Centre {
    /// The operator who holds an open incident at a moment, seconds since 1970: its claimer, unless that hold has lapsed by the setup in
    /// force.
    pub fn holder_at(&self, number: u64, at: u64) -> Option<Txt>
        requires open { IsSome (find (has_number number) self.now.sum.incidents) }
        ensures kept { result ≡ holder_then self.now.sum [] at number }
        ensures holder { (b : Summary) (h : List Entry) → StandsFor b self.now h → result ≡ holder_then b (marks b h) at number }
    {
        let Some(i) = self.queued.table().get(number) else {
            unreachable!()
        };
        holder_at(i, at, self.lapse())
    }

    /// After how many seconds a hold lapses by the setup in force, if ever.
    pub fn lapse(&self) -> Option<u64>
        ensures { result ≡ lapse self.now.sum [] }
    {
        lapse_by(&self.accounts)
    }
}

/// After how many seconds a hold lapses by the setup that accounts go by, if ever.
pub(crate) fn lapse_by(accounts: &SupervisedAccounts) -> Option<u64>
    ensures { (s : Summary) → s.text ≡ accounts.now.text → result ≡ lapse s [] }
{
    match accounts.setup() {
        Some(setup) => setup.lapse(),
        None => None,
    }
}
