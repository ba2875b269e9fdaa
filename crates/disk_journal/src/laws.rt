// What holds of all bytes, and of all areas.
ghost use Rattle.std.specs.Prelude.{List, ℕ};
ghost use Rattle.arc_io.specs.Areas.{Areas};
ghost use Rattle.disk_journal.specs.Faults.{HasOneAnswer, HaveOneAnswer};

/// No bytes stand for two lists, or for a list where a refusal is shown, or show two refusals.
pub fn law_one_answer()
    ensures { (bytes : List ℕ) → HasOneAnswer bytes }
{}

/// No areas stand for two summaries or lists of bodies, or for some where a refusal is shown, or show two refusals.
pub fn law_one_standing()
    ensures { (areas : Areas) → HaveOneAnswer areas }
{}
