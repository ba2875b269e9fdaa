// No bytes spell two summaries in one version.
ghost use Rattle.summary_codec.specs.OneSpelling.{SpellsOne};

/// Bytes that spell a summary in a version spell no other one in it, and none of another generation.
#[tactic(auto, using(crate::proofs::Whole::spells_one))]
pub fn law_one_spelling()
    ensures { SpellsOne }
{}
