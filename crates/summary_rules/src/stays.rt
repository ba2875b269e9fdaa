// What stays so of the summaries of histories.
ghost use Rattle.summary_rules.specs.Laws.{RowsAscend, MomentsStay, MessagesStay, SetupsStay, IncidentsStay, CountsStay, ActsStay, SummariesAreSpelled, ShortOnesAreFew, NothingIsSpelled, SummariesCompose};

/// The rows of the summary of a history ascend by account.
#[tactic(auto, using(crate::proofs::Ascending::rows_ascend))]
pub fn law_rows_ascend()
    ensures { RowsAscend }
{}

/// The summary of a legal history names no moment later than that of its last entry.
#[tactic(auto, using(crate::proofs::Moments::moments_stay))]
pub fn law_moments_stay()
    ensures { MomentsStay }
{}

/// The messages of each row have signals, and their moments don't fall.
#[tactic(auto, using(crate::proofs::Messages::messages_stay))]
pub fn law_messages_stay()
    ensures { MessagesStay }
{}

/// The setup text in force is a setup.
#[tactic(auto, using(crate::proofs::Moments::setups_stay))]
pub fn law_setups_stay()
    ensures { SetupsStay }
{}

/// Of the open incidents no two are of one account and class, and no operator holds two at the last moment; each has a signal, and of one
/// without a claimer no moment is told since which it was not touched.
#[tactic(auto, using(crate::proofs::OpenIncidents::incidents_stay))]
pub fn law_incidents_stay()
    ensures { IncidentsStay }
{}

/// A recorded entry opens at most 4,000 incidents, and brings no incident more than 4,000 signals.
#[tactic(auto, using(crate::proofs::Counts::counts_stay))]
pub fn law_counts_stay()
    ensures { CountsStay }
{}

/// The acts of an open incident are of its steps, and no two are of one step.
#[tactic(auto, using(crate::proofs::Acting::acts_stay))]
pub fn law_acts_stay()
    ensures { ActsStay }
{}

/// The summary of a legal history has a spelling in version 2 where the one that it goes on from has one in either version, as long as its
/// moments lie before the year 10000, at most 2^48 entries are recorded, and four bytes hold the counts of its rows and of its open
/// incidents.
pub fn law_summaries_are_spelled()
    ensures { SummariesAreSpelled }
{}

/// A summary of fewer than 2^32 bytes has no more rows and no more incidents than four bytes can count.
#[tactic(auto, using(crate::proofs::Short::short_few))]
pub fn law_short_ones_are_few()
    ensures { ShortOnesAreFew }
{}

/// The empty summary, over which a first history begins, has a spelling in both versions.
#[tactic(auto, using(crate::proofs::Spelled::nothing_spelled))]
pub fn law_nothing_is_spelled()
    ensures { NothingIsSpelled }
{}

/// The summary of a history over the summary of a legal one is the summary of that one and then the other.
#[tactic(auto, using(crate::proofs::Composing::summaries_compose))]
pub fn law_summaries_compose()
    ensures { SummariesCompose }
{}
