// Which steps of an incident are met.
ghost use Rattle.std.specs.Prelude.{◌≡◌, ◌<◌, ◌≤◌, ◌&&◌, length, IfSome};
ghost use Rattle.std.specs.List.{list_any};
ghost use Rattle.arc_data.specs.Steps.{fits as fits_step, is_call as is_call_step, is_reached as is_reached_outcome, same_step};
ghost use Rattle.alarm_rules.specs.Plans.{is_met as is_met_after, is_unmet as is_unmet_at, was_done as was_done_by, was_reached as was_reached_by};
ghost use Rattle.alarm_rules.specs.Plans.{remaining as first_unmet, left as count_unmet, expected_step as first_unmet_step};

use arc_data::{Acted, Acts, Outcome, Step, StepList};

/// Whether a step may be recorded with this outcome: a call as reached or unanswered, any other step as done.
pub fn fits(step: Step, outcome: Outcome) -> bool
    ensures { result ≡ fits_step step outcome }
{
    match outcome {
        Outcome::Reached | Outcome::NoAnswer => is_call(step),
        Outcome::Done => !is_call(step),
    }
}

#[tactic(auto, unfolding(alarm_rules::specs::Plans::unmet))]
/// The place of the first step that is not met. A step is met where it is recorded, or where it is a call and a call that
/// stands before it in the list is recorded as reached.
pub fn remaining(steps: &StepList, acts: &Acts) -> Option<usize>
    ensures first { result ≡ first_unmet steps.now acts.now }
    ensures place { IfSome result (λ place. place < length steps.now) }
{
    let (steps, acts) = (steps.items(), acts.items());
    (0..steps.len()).find(|place| is_unmet(steps, acts, *place))
}

/// The first step that is not met.
pub fn expected_step(steps: &StepList, acts: &Acts) -> Option<Step>
    ensures { result ≡ first_unmet_step steps.now acts.now }
{
    remaining(steps, acts).map(|place| steps.at(place))
}

#[tactic(auto, unfolding(alarm_rules::specs::Plans::unmet))]
/// How many steps are not met, at most 10.
pub fn left(steps: &StepList, acts: &Acts) -> usize
    ensures left { result ≡ count_unmet steps.now acts.now }
    ensures few { result ≤ length steps.now }
{
    let (steps, acts) = (steps.items(), acts.items());
    (0..steps.len())
        .filter(|place| is_unmet(steps, acts, *place))
        .count()
}

// Whether the step at a place is not met.
fn is_unmet(steps: &[Step], acts: &[Acted], place: usize) -> bool
    requires { place < length steps.now }
    ensures { result ≡ is_unmet_at steps.now acts.now place }
{
    !is_met(acts, &steps[..place], steps[place])
}

// Whether a step that stands after these earlier ones is met.
fn is_met(acts: &[Acted], earlier: &[Step], step: Step) -> bool
    ensures { result ≡ is_met_after acts.now earlier.now step }
{
    if was_done(acts, step) {
        return true;
    }
    is_call(step) && has_reached_one(acts, earlier)
}

// Whether one of these steps is a call that is recorded as reached.
fn has_reached_one(acts: &[Acted], earlier: &[Step]) -> bool
    ensures { result ≡ list_any (was_reached_by acts.now) earlier.now }
{
    earlier.iter().any(|step| was_reached(acts, *step))
}

fn is_call(step: Step) -> bool
    ensures { result ≡ is_call_step step }
{
    matches!(step, Step::Premises | Step::Holder(_))
}

// Whether the step is recorded.
fn was_done(acts: &[Acted], step: Step) -> bool
    ensures { result ≡ was_done_by acts.now step }
{
    acts.iter().any(|acted| acted.step == step)
}

// Whether the step is a call that is recorded as reached.
fn was_reached(acts: &[Acted], step: Step) -> bool
    ensures { result ≡ was_reached_by acts.now step }
{
    is_call(step) && has_reached(acts, step)
}

// Whether the step is recorded as reached.
fn has_reached(acts: &[Acted], step: Step) -> bool
    ensures { result ≡ list_any (λ a. same_step a.step step && is_reached_outcome a.outcome) acts.now }
{
    acts.iter().any(|acted| reaches(acted, step))
}

fn reaches(acted: &Acted, step: Step) -> bool
    ensures { result ≡ (same_step acted.now.step step && is_reached_outcome acted.now.outcome) }
{
    acted.step == step && matches!(acted.outcome, Outcome::Reached)
}
