// A second centre that stands for the same histories.
ghost use Rattle.std.specs.Prelude.{◌≡◌, List, IfOk};
ghost use Rattle.centre_rules.specs.Summary.{Summary};
ghost use Rattle.centre_rules.specs.History.{Entry};
ghost use Rattle.centre_rules.specs.State.{StandsFor};

use crate::centre::Centre;
use arc_data::Memory;
use std::alloc::Global;

impl Centre {
    /// A copy of the centre: it stands for the same histories, and what is done with one of both is not seen at the other. The error
    /// is want of memory.
    pub fn copy(&self, alloc: Global) -> Result<Centre, Memory>
        ensures entries { IfOk result (λ copy. copy.entries ≡ self.now.entries) }
        ensures sum { IfOk result (λ copy. copy.sum ≡ self.now.sum) }
        ensures stands { IfOk result (λ copy. (b : Summary) (h : List Entry) → StandsFor b self.now h → StandsFor b copy h) }
    {
        let queued = self.queued.copy(alloc)?;
        let accounts = self.accounts.copy(alloc)?;
        Ok(Centre {
            entries: self.entries,
            recorded: self.recorded,
            last: self.last,
            accounts,
            queued,
        })
    }
}
