// The rows of the operator's own incident.
ghost use Rattle.std.specs.Prelude.{◌≡◌, ◌-◌, ◌∷◌, [], codes, decimal};
ghost use Rattle.screen_page.specs.Mine.{ahead_row, called_text, due_row, keys_text, mine_rows, outcome_words, own_rows, recorded_row};
ghost use Rattle.screen_page.specs.Mine.{restored_text, site_of_view, site_row, site_text, viewed_row, with_act, with_called, with_via};
ghost use Rattle.screen_page.specs.Texts.{age, with_texts};

use crate::commands::step_line;
use crate::sites::Sites;
use crate::strip::{Strip, strip_of};
use crate::tone::Tone;
use arc_data::{Outcome, Step, Txt, View};
use desk_screen::{Due, Own};

fn restored_text(restored: bool) -> &'static [u8]
    ensures { result.now ≡ restored_text restored }
{
    if restored { b" restored" } else { b"" }
}

// Since when an incident is open, and what came of it.
fn put_since(strip: &mut Strip, view: &View, moment: u64)
    ensures { strip.new ≡ with_texts strip.old (codes " since " ∷ age (moment - view.now.at) ∷ codes " signals " ∷ decimal view.now.signals ∷ restored_text view.now.restored ∷ []) }
{
    strip.put(b" since ");
    strip.put_age(moment.saturating_sub(view.at));
    strip.put(b" signals ");
    strip.put_number(view.signals);
    strip.put(restored_text(view.restored));
}

// The line by which an incident came, where one is named.
fn put_via(strip: &mut Strip, via: &Txt)
    ensures { strip.new ≡ with_via strip.old via.now }
{
    match via.bytes() {
        [] => {}
        name => {
            strip.put(b" via ");
            strip.put(name);
        }
    }
}

// What is known of the own incident.
fn viewed_row(number: u64, view: &Option<View>, moment: u64) -> Strip
    ensures { result ≡ viewed_row number view.now moment }
{
    let mut strip = Strip::new();
    strip.put(b"YOURS ");
    strip.put_number(number);
    if let Some(view) = view {
        strip.put(b" ");
        strip.put(view.class.name().as_bytes());
        strip.put(b" account ");
        strip.put(view.account.bytes());
        strip.put(b" code ");
        strip.put(view.code.bytes());
        put_since(&mut strip, view, moment);
        put_via(&mut strip, &view.via);
    }
    strip
}

// What the file of sites says of an account.
fn site_text<'a>(sites: &'a Option<Sites>, account: &Txt) -> &'a [u8]
    ensures { result.now ≡ site_text sites.now account.now }
{
    match sites {
        Some(sites) => match sites.site(account.bytes()) {
            Some(text) => text,
            None => b"sites.txt has no site line of this account",
        },
        None => b"there is no sites.txt: take the customer's card",
    }
}

fn site_row(sites: &Option<Sites>, account: &Txt) -> Strip
    ensures { result ≡ site_row sites.now account.now }
{
    let mut strip = Strip::new();
    strip.put(b"site  ");
    strip.put(site_text(sites, account));
    strip
}

fn site_of_view(sites: &Option<Sites>, view: &Option<View>) -> Strip
    ensures { result ≡ site_of_view sites.now view.now }
{
    match view {
        Some(view) => site_row(sites, &view.account),
        None => Strip::new(),
    }
}

// Whom a call step calls.
fn called_text<'a>(sites: &'a Option<Sites>, account: &Txt, number: u8) -> &'a [u8]
    ensures { result.now ≡ called_text sites.now account.now number }
{
    match sites {
        Some(sites) => match sites.holder(account.bytes(), number) {
            Some(text) => text,
            None => b"sites.txt has no such keyholder",
        },
        None => b"there is no sites.txt",
    }
}

fn put_called(strip: &mut Strip, sites: &Option<Sites>, view: &Option<View>, step: Step)
    ensures { strip.new ≡ with_called strip.old sites.now view.now step }
{
    if let (Some(view), Step::Holder(number)) = (view, step) {
        strip.put(b": ");
        strip.put(called_text(sites, &view.account, number));
    }
}

fn keys_text(step: Step) -> &'static [u8]
    ensures { result.now ≡ keys_text step }
{
    match step {
        Step::Premises => b"   r reached, a no answer",
        Step::Holder(_) => b"   r reached, a no answer; A nobody, u i o p",
        _ => b"   d done; D all tasks",
    }
}

// The step that is expected, and the keys that record it.
fn ahead_row(sites: &Option<Sites>, view: &Option<View>, step: Step) -> Strip
    ensures { result ≡ ahead_row sites.now view.now step }
{
    let mut strip = Strip::new();
    strip.put(b"NOW   ");
    strip.put(step_line(step).bytes());
    put_called(&mut strip, sites, view, step);
    strip.put(keys_text(step));
    strip
}

fn due_row(sites: &Option<Sites>, view: &Option<View>, due: Due) -> Strip
    ensures { result ≡ due_row sites.now view.now due }
{
    match due {
        Due::Ahead(step) => ahead_row(sites, view, step),
        Due::AllMet => { strip_of(b"NOW   each step is met: R real, F false, T test, and then y") }
        Due::Untold => strip_of(b"NOW   the desk is asked for the next step"),
    }
}

fn outcome_words(outcome: Outcome) -> &'static [u8]
    ensures { result.now ≡ outcome_words outcome }
{
    match outcome {
        Outcome::Reached => b"reached",
        Outcome::NoAnswer => b"no answer",
        Outcome::Done => b"done",
    }
}

fn put_act(strip: &mut Strip, number: u64, act: &(u64, Step, Outcome))
    ensures { strip.new ≡ with_act number strip.old act.now }
{
    if act.0 == number {
        strip.put(step_line(act.1).bytes());
        strip.put(b" ");
        strip.put(outcome_words(act.2));
        strip.put(b"; ");
    }
}

// What was recorded of an incident in this sitting.
#[tactic(auto, unfolding(crate::specs::Mine::recorded_row))]
fn recorded_row(number: u64, acts: &[(u64, Step, Outcome)]) -> Strip
    ensures { result ≡ recorded_row number acts.now }
{
    let mut strip = strip_of(b"done  ");
    for act in acts {
        put_act(&mut strip, number, act);
    }
    strip
}

fn mine_row(
    sites: &Option<Sites>,
    acts: &[(u64, Step, Outcome)],
    moment: u64,
    own: &Own,
    index: usize,
) -> (Tone, Strip)
    ensures { result ≡ mine_rows sites.now acts.now moment own.now index }
{
    match index {
        0 => (Tone::Mine, viewed_row(own.number, &own.view, moment)),
        1 => (Tone::Plainly, site_of_view(sites, &own.view)),
        2 => (Tone::Heading, due_row(sites, &own.view, own.due)),
        _ => (Tone::Plainly, recorded_row(own.number, acts)),
    }
}

/// A row of the own incident: there are four, from 0 on.
pub(crate) fn own_row(
    sites: &Option<Sites>,
    acts: &[(u64, Step, Outcome)],
    moment: u64,
    own: &Option<Own>,
    index: usize,
) -> (Tone, Strip)
    ensures { result ≡ own_rows sites.now acts.now moment own.now index }
{
    match own {
        Some(own) => mine_row(sites, acts, moment, own, index),
        None if index == 0 => {
            let strip = strip_of(b"no incident is yours: n takes the most urgent one");
            (Tone::Plainly, strip)
        }
        None => (Tone::Plainly, Strip::new()),
    }
}
