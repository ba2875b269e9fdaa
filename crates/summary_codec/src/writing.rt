// The bytes of a summary in version 2, part by part, each put last. Each error is want of memory.
ghost use Rattle.std.specs.Prelude.{◌≡◌, ◌++◌, ◌∷◌, ◌≤◌, [], true, length, reverse, take, OnOk};
ghost use Rattle.std.specs.Int.{w16, w32, to_be_bytes};
ghost use Rattle.std.specs.Option.{option_map};
ghost use Rattle.arc_data.specs.Steps.{is_step};
ghost use Rattle.event_codec.specs.Spelling.{step_byte};
ghost use Rattle.summary_rules.specs.Spelling.{truth_byte, option_text, long_number, long_text, few_texts, opening_text, message_text, past_text, row_text};
ghost use Rattle.summary_rules.specs.Spelling.{class_byte, holder_text, act_text, incident_text};
ghost use Rattle.summary_codec.specs.Writing.{AreGood, AreActsGood};

use arc_data::{Acted, Class, Incident, Memory, Message, Opened, Step, StepList, Txt};
use event_codec::{byte_of_outcome, byte_of_token, put, put_byte, put_text};
use repeat_window::{Seen, Window};

/// Puts a number in eight bytes.
#[tactic(auto, unfolding(summary_rules::specs::Spelling::long_number))]
pub fn put_number(number: u64, out: &mut Vec<u8>) -> Result<(), Memory>
    ensures { OnOk result (out.new.items ≡ out.old.items ++ long_number number) }
{
    put(&number.to_be_bytes(), out)
}

/// Puts a number that may lack.
pub fn put_given(number: Option<u64>, out: &mut Vec<u8>) -> Result<(), Memory>
    ensures { OnOk result (out.new.items ≡ out.old.items ++ option_text long_number number) }
{
    match number {
        None => put_byte(0, out),
        Some(number) => {
            put_byte(1, out)?;
            put_number(number, out)
        }
    }
}

/// Puts a count in four bytes. Of one that they can't hold the lowest four stand there.
pub fn put_count(count: usize, out: &mut Vec<u8>) -> Result<(), Memory>
    ensures { OnOk result (out.new.items ≡ out.old.items ++ to_be_bytes w32 count) }
{
    let bytes = (count as u64).to_be_bytes();
    put(&bytes[4..], out)
}

/// Puts a setup text that may lack.
#[tactic(auto, unfolding(summary_rules::specs::Spelling::long_text))]
pub fn put_setup(text: Option<&[u8]>, out: &mut Vec<u8>) -> Result<(), Memory>
    ensures { OnOk result (out.new.items ≡ out.old.items ++ option_text long_text (option_map (λ t. t.now) text.entry)) }
{
    match text {
        None => put_byte(0, out),
        Some(text) => {
            put_byte(1, out)?;
            put_count(text.len(), out)?;
            put(text, out)
        }
    }
}

// Rows.

fn put_truth(truth: bool, out: &mut Vec<u8>) -> Result<(), Memory>
    ensures { OnOk result (out.new.items ≡ out.old.items ++ truth_byte truth ∷ []) }
{
    put_byte(if truth { 1 } else { 0 }, out)
}

fn put_opening(opening: Option<Opened>, out: &mut Vec<u8>) -> Result<(), Memory>
    ensures { OnOk result (out.new.items ≡ out.old.items ++ option_text opening_text opening) }
{
    match opening {
        None => put_byte(0, out),
        Some(opened) => {
            put_byte(1, out)?;
            put_number(opened.at, out)?;
            put_truth(opened.late, out)
        }
    }
}

// A length in two bytes. Of one that they can't hold the lowest two stand there.
fn put_length(length: usize, out: &mut Vec<u8>) -> Result<(), Memory>
    ensures { OnOk result (out.new.items ≡ out.old.items ++ to_be_bytes w16 length) }
{
    let bytes = (length as u64).to_be_bytes();
    put(&bytes[6..], out)
}

fn put_message(message: &Message, out: &mut Vec<u8>) -> Result<(), Memory>
    ensures { OnOk result (out.new.items ≡ out.old.items ++ message_text message.now) }
{
    match &message.receiver {
        Some(digits) => put_text(digits, out)?,
        None => put_byte(0, out)?,
    }
    put_text(&message.line, out)?;
    put(&message.seq.to_be_bytes(), out)?;
    put_byte(byte_of_token(message.token), out)?;
    put_length(message.content.count(), out)?;
    put(message.content.bytes(), out)
}

fn put_past(seen: &Seen, out: &mut Vec<u8>) -> Result<(), Memory>
    ensures { OnOk result (out.new.items ≡ out.old.items ++ past_text seen.now) }
{
    put_number(seen.at, out)?;
    put_message(&seen.message, out)
}

// The messages of a window, the oldest first.
#[tactic(auto, unfolding(summary_rules::specs::Spelling::few_texts))]
fn put_window(window: &Window, out: &mut Vec<u8>) -> Result<(), Memory>
    ensures { OnOk result (out.new.items ≡ out.old.items ++ few_texts past_text (reverse (take 32 window.now))) }
{
    put_byte(window.count() as u8, out)?;
    for i in 0..window.count() {
        put_past(window.at(i), out)?;
    }
    Ok(())
}

/// Puts the row of an account: when it was heard, whether it failed, its opening, and the messages of its window.
#[tactic(auto, unfolding(summary_rules::specs::Spelling::row_text))]
pub fn put_row(
    account: &Txt,
    heard: Option<u64>,
    failed: bool,
    opening: Option<Opened>,
    window: &Window,
    out: &mut Vec<u8>,
) -> Result<(), Memory>
    ensures { OnOk result (out.new.items ≡ out.old.items ++ row_text (record { account = account.now; heard = heard; failed = failed; opening = opening; messages = take 32 window.now })) }
{
    put_text(account, out)?;
    put_given(heard, out)?;
    put_truth(failed, out)?;
    put_opening(opening, out)?;
    put_window(window, out)
}

// Incidents.

fn byte_of_class(class: Class) -> u8
    ensures { result ≡ class_byte class }
{
    class as u8 + 1
}

// The byte that stands for a step.
fn byte_of_step(step: Step) -> u8
    ensures { is_step step ≡ true → result ≡ step_byte step }
{
    match step {
        Step::Premises => 1,
        Step::Holder(number) => number.saturating_add(1),
        Step::Police => 6,
        Step::Fire => 7,
        Step::Ambulance => 8,
        Step::Guard => 9,
        Step::Note => 10,
    }
}

fn put_holder(holder: &Option<Txt>, touched: u64, out: &mut Vec<u8>) -> Result<(), Memory>
    ensures { OnOk result (out.new.items ≡ out.old.items ++ holder_text holder.now touched) }
{
    match holder {
        None => put_text(&Txt::empty(), out),
        Some(operator) => {
            put_text(operator, out)?;
            put_number(touched, out)
        }
    }
}

fn put_steps(steps: &StepList, out: &mut Vec<u8>) -> Result<(), Memory>
    ensures { OnOk result (AreGood steps.now → out.new.items ≡ out.old.items ++ few_texts (λ s. step_byte s ∷ []) steps.now) }
{
    put_byte(steps.count() as u8, out)?;
    for k in 0..steps.count() {
        put_byte(byte_of_step(steps.at(k)), out)?;
    }
    Ok(())
}

fn put_act(acted: &Acted, out: &mut Vec<u8>) -> Result<(), Memory>
    ensures { OnOk result (is_step acted.now.step ≡ true → out.new.items ≡ out.old.items ++ act_text acted.now) }
{
    put_byte(byte_of_step(acted.step), out)?;
    put_byte(byte_of_outcome(acted.outcome), out)?;
    put_number(acted.at, out)?;
    put_text(&acted.operator, out)
}

fn put_acts(acts: &[Acted], out: &mut Vec<u8>) -> Result<(), Memory>
    requires { length acts.now ≤ 10 }
    ensures { OnOk result (AreActsGood acts.now → out.new.items ≡ out.old.items ++ few_texts act_text acts.now) }
{
    put_byte(acts.len() as u8, out)?;
    for acted in acts {
        put_act(acted, out)?;
    }
    Ok(())
}

// What an incident was opened by, and what came of it since.
fn put_opened(i: &Incident, out: &mut Vec<u8>) -> Result<(), Memory>
    ensures { OnOk result (out.new.items ≡ out.old.items ++ (long_number i.now.number ++ (length i.now.account ∷ i.now.account ++ (class_byte i.now.class ∷ (length i.now.code ∷ i.now.code ++ (length i.now.via ∷ i.now.via ++ long_number i.now.at)))))) }
{
    put_number(i.number, out)?;
    put_text(&i.account, out)?;
    put_byte(byte_of_class(i.class), out)?;
    put_text(&i.code, out)?;
    put_text(&i.via, out)?;
    put_number(i.at, out)
}

/// Puts an open incident, with its steps and acts.
#[tactic(auto, unfolding(summary_rules::specs::Spelling::incident_text))]
pub fn put_incident(i: &Incident, out: &mut Vec<u8>) -> Result<(), Memory>
    ensures { OnOk result (AreGood i.now.steps → AreActsGood i.now.acts → out.new.items ≡ out.old.items ++ incident_text 2 i.now) }
{
    put_opened(i, out)?;
    put_number(i.signals, out)?;
    put_truth(i.restored, out)?;
    put_holder(&i.holder, i.touched, out)?;
    put_steps(&i.steps, out)?;
    put_acts(i.acts.items(), out)?;
    Ok(())
}

/// Puts the tag of a summary, its generation, its last moment, how many entries are recorded, and how many incidents were opened.
pub fn put_head(
    generation: u64,
    last: u64,
    recorded: u64,
    opened: u64,
    out: &mut Vec<u8>,
) -> Result<(), Memory>
    ensures { OnOk result (out.new.items ≡ out.old.items ++ 11 ∷ (long_number generation ++ (long_number last ++ (long_number recorded ++ long_number opened)))) }
{
    put_byte(11, out)?;
    put_number(generation, out)?;
    put_number(last, out)?;
    put_number(recorded, out)?;
    put_number(opened, out)
}
