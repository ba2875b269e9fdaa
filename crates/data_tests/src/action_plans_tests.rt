// What no clause says: plans with all their words, acts of a worked case, and the room for steps.
ghost use Rattle.std.specs.Prelude.{◌≤◌};

use crate::checks::{holds, same, same_found, short};
use action_plans::{Plan, expected_step, fits, left, remaining};
use arc_data::{Acted, Acts, Outcome, PlanWord, Step, StepList};
use std::process::Abort;

const WORDS: [PlanWord; 7] = [
    PlanWord::Premises,
    PlanWord::Holders,
    PlanWord::Police,
    PlanWord::Fire,
    PlanWord::Ambulance,
    PlanWord::Guard,
    PlanWord::Note,
];

fn plan_of(words: &[(PlanWord, bool)]) -> Plan {
    let mut plan = Plan::new();
    for (word, closed) in words {
        let _ = plan.add(*word, *closed);
    }
    plan
}

#[test]
fn a_word_stands_once(rt: HostRuntime) {
    let mut plan = Plan::new();
    for word in WORDS {
        holds(&rt, plan.add(word, false), "the first time");
        holds(&rt, !plan.add(word, true), "the second time");
    }
    same(&rt, plan.steps(true, 4).count() as u64, 10, "in open hours");
    same(
        &rt,
        plan.steps(false, 0).count() as u64,
        6,
        "without keyholders",
    );
}

#[test]
fn marked_words_count_outside_open_hours(rt: HostRuntime) {
    let plan = plan_of(&[
        (PlanWord::Premises, true),
        (PlanWord::Holders, false),
        (PlanWord::Police, true),
    ]);
    has_steps(&rt, &plan, true, 0, &[]);
    has_steps(&rt, &plan, true, 2, &[Step::Holder(1), Step::Holder(2)]);
    has_steps(&rt, &plan, false, 0, &[Step::Premises, Step::Police]);
    let all = [Step::Premises, Step::Holder(1), Step::Police];
    has_steps(&rt, &plan, false, 1, &all);
    let closed = plan_of(&[(PlanWord::Guard, true), (PlanWord::Note, true)]);
    has_steps(&rt, &closed, true, 4, &[]);
}

fn has_steps(rt: &impl Abort, plan: &Plan, in_hours: bool, holders: u8, want: &[Step])
    requires { holders ≤ 4 }
{
    let steps = plan.steps(in_hours, holders);
    assert_eq!(rt; steps.items(), want);
}

#[test]
fn outcomes_that_fit(rt: HostRuntime) {
    fits_as(&rt, Step::Premises, true);
    fits_as(&rt, Step::Holder(4), true);
    fits_as(&rt, Step::Police, false);
    fits_as(&rt, Step::Note, false);
}

// A call may be reached or unanswered, any other step done.
fn fits_as(rt: &impl Abort, step: Step, is_call: bool) {
    holds(rt, fits(step, Outcome::Reached) == is_call, "reached");
    holds(rt, fits(step, Outcome::NoAnswer) == is_call, "unanswered");
    holds(rt, fits(step, Outcome::Done) != is_call, "done");
}

#[test]
fn a_reached_call_meets_the_later_calls_alone(rt: HostRuntime) {
    let plan = plan_of(&[
        (PlanWord::Premises, false),
        (PlanWord::Police, false),
        (PlanWord::Holders, false),
        (PlanWord::Note, false),
    ]);
    let steps = plan.steps(false, 2);
    let mut acts = Acts::new();
    for (place, step, outcome, unmet) in [
        (0, Step::Premises, Outcome::NoAnswer, 5),
        (1, Step::Police, Outcome::Done, 4),
        (2, Step::Holder(1), Outcome::Reached, 3),
        (4, Step::Note, Outcome::Done, 1),
    ] {
        is_left(&rt, &steps, &acts, (Some(place), Some(step), unmet));
        record(&rt, &mut acts, step, outcome);
    }
    is_left(&rt, &steps, &acts, (None, None, 0));
}

// The place of the first step that is not met, that step, and how many are not.
fn is_left(rt: &impl Abort, steps: &StepList, acts: &Acts, want: (Option<u64>, Option<Step>, u64)) {
    let (place, step, unmet) = want;
    let told = remaining(steps, acts).map(|place| place as u64);
    same_found(rt, told, place, "the place");
    holds(rt, expected_step(steps, acts) == step, "the step");
    same(
        rt,
        left(steps, acts) as u64,
        unmet,
        "the steps that are left",
    );
}

fn record(rt: &impl Abort, acts: &mut Acts, step: Step, outcome: Outcome) {
    let acted = Acted {
        step,
        outcome,
        at: 1_000_000_000,
        operator: short(rt, "ann"),
    };
    holds(rt, acts.push(acted), "room");
}
