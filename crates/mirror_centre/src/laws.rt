// The law of a centre and its mirror.
ghost use Rattle.std.specs.Prelude.{List};
ghost use Rattle.centre_rules.specs.Summary.{Summary};
ghost use Rattle.centre_rules.specs.History.{Entry};
ghost use Rattle.mirror_centre.specs.Mirroring.{Pair, Step, IsBeginning, IsBehindAll, IsMirrored, StaysMirrored};

use arc_io::Disk;

/// A mirror follows from where it begins, empty or with a copy of its centre's areas; and wherever it follows, it still does behind every
/// list of steps of both: the recorded entries of the mirror are the first ones of the centre's, and it has as many as each ask confirms,
/// whatever is lost, comes late or comes twice, and wherever either one crashes.
pub fn law_mirror<P: Disk, M: Disk>()
    ensures begins { (b : Summary) (h k : List Entry) (start : Pair P M) → IsBeginning P.seen b h k start
        → IsMirrored P.seen M.seen b h k start }
    ensures stays { (b : Summary) (h k : List Entry) (start x : Pair P M) (steps : List Step) → IsMirrored P.seen M.seen b h k start
        → IsBehindAll P.seen M.seen start steps x → StaysMirrored P.seen M.seen b h k x }
{}
