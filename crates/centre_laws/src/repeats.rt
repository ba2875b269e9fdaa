// Entries that are not recorded.
ghost use Rattle.centre_laws.specs.Repeats.{QuietChangesNothing};

/// Entries that are not recorded, repeats among them, change no answer.
pub fn law_repeats()
    ensures { QuietChangesNothing }
{}
