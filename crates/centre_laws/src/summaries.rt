// Summaries of histories.
ghost use Rattle.centre_laws.specs.Summaries.{SummaryTells};

/// Over the summary of a legal history all goes on as over the history itself.
pub fn law_summary()
    ensures { SummaryTells }
{}
