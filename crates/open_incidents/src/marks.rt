// What each mark does to the table. None of these calls takes memory.
ghost use Rattle.std.specs.Prelude.{◌≡◌, ◌<◌, ◌^◌, ◌+◌, ℕ, List, Some, length, IsSome};
ghost use Rattle.std.specs.List.{find};
ghost use Rattle.arc_data.specs.Incidents.{has_number};
ghost use Rattle.centre_rules.specs.Marks.{Adopts, Starts, Carries, Claims, Acts, Releases, Closes};
ghost use Rattle.centre_rules.specs.History.{acted_by};
ghost use Rattle.open_incidents.specs.Marked.{marked_table, HasFew, IsFew, HaveActRoom, FitsAct};
ghost use Rattle.open_incidents.specs.Waiting.{WasIn};

use arc_data::{Carried, Kind, Outcome, Step, Txt};
use incidents::{Former, Table};

/// A setup comes into force, or a run starts: nobody holds an incident any more.
pub fn release_all(table: &mut Table)
    ensures adopted { (text : List ℕ) → table.new ≡ marked_table (Adopts text) table.old }
    ensures started { (at : ℕ) → table.new ≡ marked_table (Starts at) table.old }
    ensures few { (n : ℕ) → IsFew n table.old.opened table.old.incidents → IsFew n table.new.opened table.new.incidents }
    ensures room { HaveActRoom table.old.incidents → HaveActRoom table.new.incidents }
{
    table.release_all();
}

/// An operator claims an incident. The answer is what it was before.
pub fn claim(table: &mut Table, operator: Txt, number: u64, at: u64) -> Option<Former>
    ensures marked { table.new ≡ marked_table (Claims operator number at) table.old }
    ensures was { WasIn table.old.incidents number result }
    ensures few { (n : ℕ) → IsFew n table.old.opened table.old.incidents → IsFew n table.new.opened table.new.incidents }
    ensures room { HaveActRoom table.old.incidents → HaveActRoom table.new.incidents }
{
    table.hold(number, Some(operator), at)
}

/// An operator gives an incident back. The answer is what it was before.
pub fn release(table: &mut Table, number: u64) -> Option<Former>
    ensures marked { table.new ≡ marked_table (Releases number) table.old }
    ensures was { WasIn table.old.incidents number result }
    ensures few { (n : ℕ) → IsFew n table.old.opened table.old.incidents → IsFew n table.new.opened table.new.incidents }
    ensures room { HaveActRoom table.old.incidents → HaveActRoom table.new.incidents }
{
    table.hold(number, None, 0)
}

/// An operator records a step of an incident that he claimed.
pub fn act(table: &mut Table, number: u64, step: Step, outcome: Outcome, at: u64, operator: Txt)
    requires fits { FitsAct number (acted_by operator step outcome at) table.old.incidents }
    requires room { HaveActRoom table.old.incidents }
    ensures marked { table.new ≡ marked_table (Acts number (acted_by operator step outcome at)) table.old }
    ensures few { (n : ℕ) → IsFew n table.old.opened table.old.incidents → IsFew n table.new.opened table.new.incidents }
    ensures room { HaveActRoom table.new.incidents }
{
    table.act(number, step, outcome, at, operator);
}

/// An operator closes an open incident. The answer is what it was.
pub fn close(table: &mut Table, number: u64) -> Former
    requires { IsSome (find (has_number number) table.old.incidents) }
    ensures opened { table.new.opened ≡ (marked_table (Closes number) table.old).opened }
    ensures incidents { table.new.incidents ≡ (marked_table (Closes number) table.old).incidents }
    ensures was { WasIn table.old.incidents number (Some result) }
    ensures few { (n : ℕ) → IsFew n table.old.opened table.old.incidents → IsFew n table.new.opened table.new.incidents }
    ensures room { HaveActRoom table.old.incidents → HaveActRoom table.new.incidents }
{
    table.remove(number)
}

/// An account has a signal. A New or Again one is attached to the open incident of the account and class, or else opens one,
/// where the class has a priority; a Restore marks the open one restored; the others do nothing here.
pub fn carry(table: &mut Table, x: &Carried)
    requires few { table.old.opened < 2 ^ 62 }
    requires signals { HasFew table.old.incidents }
    requires room { length table.old.incidents < table.old.room }
    ensures marked { table.new ≡ marked_table (Carries x.now) table.old }
    ensures few { (n : ℕ) → IsFew n table.old.opened table.old.incidents → IsFew (n + 1) table.new.opened table.new.incidents }
    ensures room { HaveActRoom table.old.incidents → HaveActRoom table.new.incidents }
{
    let _count = x.steps.count();
    match x.signal.kind {
        Kind::New | Kind::Again => match table.find(&x.account, x.signal.class) {
            Some(number) => table.attach(number),
            None => {
                if x.signal.class.priority() > 0 {
                    let steps = x.steps.copy();
                    let _ = table.raise(
                        x.account,
                        x.signal.class,
                        x.signal.code,
                        x.at,
                        steps,
                        x.via,
                    );
                }
            }
        },
        Kind::Restore => {
            if let Some(number) = table.find(&x.account, x.signal.class) {
                table.mark_restored(number);
            }
        }
        Kind::Opening | Kind::Closing | Kind::LogOnly => {}
    }
}
