// Laws of what areas stand for, and of a store that lives through crashes.
ghost use Rattle.std.specs.Prelude.{◌≡◌, ◌<◌, ◌≤◌, ◌+◌, ◌^◌, ℕ, List, true, is_ok, length};
ghost use Rattle.alarm_rules.specs.Setups.{setup_of};
ghost use Rattle.arc_io.specs.Areas.{Areas};
ghost use Rattle.centre_rules.specs.Summary.{Summary};
ghost use Rattle.centre_rules.specs.History.{Entry, recorded};
ghost use Rattle.centre_rules.specs.Answers.{IsLegal};
ghost use Rattle.centre_laws.specs.Schedules.{Schedule, Each};
ghost use Rattle.centre_laws.specs.Spacing.{IsWellSpaced};
ghost use Rattle.event_codec.specs.Spelling.{spelling};
ghost use Rattle.centre_store.specs.Given.{IsGiven, StandForIn, StandForEither, CanBeWritten};
ghost use Rattle.centre_store.specs.Calls.{RunsLeaveAll};
ghost use Rattle.centre_store.specs.Lives.{World, IsStepButKept, Lives, LivesIdeally};
ghost use Rattle.centre_store.specs.Openings.{CanOpen, HasOneOpening};
ghost use Rattle.centre_store.specs.Pasts.{AreKept};
ghost use Rattle.centre_store.specs.Stores.{IsNextKept};

use arc_io::Disk;
use centre_laws::{law_repeats, law_restart};

/// Areas have one summary and one past over it, or one refusal of content, and no other.
pub fn law_one_opening()
    ensures { (areas : Areas) → HasOneOpening areas }
{}

/// Areas that stand for the recorded entries of a history can be opened again, where these are such as a journal has, and at most 2^48 with
/// those of the summary; and where areas of the first version stand for them, these can be written in the second.
pub fn law_recorded_opens()
    ensures { (version : ℕ) (base : Summary) (h : List Entry) (areas : Areas) → IsGiven base → IsLegal base h → AreKept (recorded h)
        → base.recorded + length (recorded h) ≤ 2 ^ 48 → CanBeWritten version base h → StandForIn version base h areas → CanOpen areas }
{}

/// What a disk leaves that failed as the record of a next entry was written can be opened again: of a history whose recorded entries are such
/// as a journal has, with room for one more.
pub fn law_torn_opens()
    ensures { (base : Summary) (h : List Entry) (e : Entry) (areas : Areas) → IsGiven base → IsLegal base h → AreKept (recorded h)
        → base.recorded + length (recorded h) < 2 ^ 48 → IsNextKept base h e → StandForEither base h (spelling e.event e.at) areas
        → CanOpen areas }
{}

/// A crash at any moment of a run of calls, each of which submits an event, leaves what was recorded before the run, and of its events that are
/// recorded some first ones, each with the answer of one thread. A run may begin behind any call: so what was answered by then, is left.
pub fn law_runs_leave<D: Disk>()
    ensures { RunsLeaveAll D.seen }
{}

/// A store that lives through a well-spaced schedule, with crashes at any moment, stands for the ideal list: what a crash leaves can be opened,
/// an opening loses nothing that was acknowledged and doubles nothing, and the centre that it gives, and each later one, answers as a
/// centre of one thread that was told just the ideal list and never crashed. Checkpoints may come at any time.
pub fn law_restarts_stand<D: Disk>()
    ensures { (x : Schedule) (w : World D) → is_ok (setup_of x.text) ≡ true → Each (IsStepButKept x) x.steps → IsWellSpaced x
        → Lives D.seen x x.steps w → LivesIdeally D.seen x w }
{
    law_repeats();
    law_restart();
}
