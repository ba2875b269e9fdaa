// The spelling of an event, in version 2.
ghost use Rattle.std.specs.Prelude.{◌≡◌, ◌++◌, ◌∷◌, [], length, OnOk, OnErr};
ghost use Rattle.std.specs.Prelude.{ℕ};
ghost use Rattle.arc_data.specs.WellFormed.{IsMessage};
ghost use Rattle.arc_data.specs.Steps.{is_step};
ghost use Rattle.event_codec.specs.Spelling.{short_text, receiver_text, token_byte, step_byte, outcome_byte, code_byte};
ghost use Rattle.event_codec.specs.Spelling.{order_fields, message_fields, tag, fields_in, spelling, HasSpelling};
ghost use Rattle.std.specs.Prelude.{true};

use arc_data::{CloseCode, Event, Memory, Message, Outcome, Step, Token, Txt};

/// Puts the spelling of the event at the moment, in version 2, into the vector, in place of what it holds. The event is neither a question for one
/// incident nor one for the list. The error is want of memory; the vector is then empty.
pub fn encode(event: &Event, at: u64, out: &mut Vec<u8>) -> Result<(), Memory>
    requires { HasSpelling event.now at }
    ensures spelled { OnOk result (out.new.items ≡ spelling event.now at) }
    ensures refused { OnErr result (out.new.items ≡ []) }
{
    out.clear();
    match put_event(event, at, out) {
        Ok(()) => Ok(()),
        Err(Memory) => {
            out.clear();
            Err(Memory)
        }
    }
}

fn put_event(event: &Event, at: u64, out: &mut Vec<u8>) -> Result<(), Memory>
    requires { HasSpelling event.now at }
    ensures { OnOk result (out.new.items ≡ out.old.items ++ spelling event.now at) }
{
    put_byte(tag_of(event), out)?;
    put(&at.to_be_bytes(), out)?;
    put_fields(event, out)
}

fn tag_of(event: &Event) -> u8
    ensures { result ≡ tag event.now }
{
    match event {
        Event::Adopt { .. } => 1,
        Event::Start => 2,
        Event::Message { .. } => 3,
        Event::Beat { .. } => 4,
        Event::Tick => 5,
        Event::Claim { .. } => 6,
        Event::Next { .. } => 7,
        Event::Act { .. } => 8,
        Event::Release { .. } => 9,
        Event::Close { .. } => 10,
        Event::Show { .. } | Event::List => 0,
    }
}

fn put_fields(event: &Event, out: &mut Vec<u8>) -> Result<(), Memory>
    requires { (at : ℕ) × HasSpelling event.now at }
    ensures { OnOk result (out.new.items ≡ out.old.items ++ fields_in 2 event.now) }
{
    match event {
        Event::Adopt { text } => {
            put(&(text.count() as u32).to_be_bytes(), out)?;
            put(text.bytes(), out)
        }
        Event::Message { message, via } => {
            put_message(message, out)?;
            put_text(via, out)
        }
        Event::Beat { account } => put_text(account, out),
        Event::Next { operator } => put_text(operator, out),
        Event::Claim { operator, number } | Event::Release { operator, number } => {
            put_order(operator, *number, out)
        }
        Event::Act {
            operator,
            number,
            step,
            outcome,
        } => {
            put_order(operator, *number, out)?;
            put(&[byte_of_step(*step), byte_of_outcome(*outcome)], out)
        }
        Event::Close {
            operator,
            number,
            code,
        } => {
            put_order(operator, *number, out)?;
            put_byte(byte_of_code(*code), out)
        }
        Event::Start | Event::Tick | Event::Show { .. } | Event::List => Ok(()),
    }
}

fn put_message(message: &Message, out: &mut Vec<u8>) -> Result<(), Memory>
    requires { IsMessage message.now }
    ensures { OnOk result (out.new.items ≡ out.old.items ++ message_fields message.now) }
{
    put_text(&message.account, out)?;
    match &message.receiver {
        Some(digits) => put_text(digits, out)?,
        None => put_byte(0, out)?,
    }
    put_text(&message.line, out)?;
    put(&message.seq.to_be_bytes(), out)?;
    put_byte(byte_of_token(message.token), out)?;
    put(&(message.content.count() as u16).to_be_bytes(), out)?;
    put(message.content.bytes(), out)
}

fn put_order(operator: &Txt, number: u64, out: &mut Vec<u8>) -> Result<(), Memory>
    ensures { OnOk result (out.new.items ≡ out.old.items ++ order_fields operator.now number) }
{
    put_text(operator, out)?;
    put(&number.to_be_bytes(), out)
}

/// Puts a byte of length last, and the bytes. The error is want of memory.
pub fn put_text(text: &Txt, out: &mut Vec<u8>) -> Result<(), Memory>
    ensures { OnOk result (out.new.items ≡ out.old.items ++ short_text text.now) }
{
    let bytes = text.bytes();
    put_byte(bytes.len() as u8, out)?;
    put(bytes, out)
}

/// Puts a byte last. The error is want of memory.
pub fn put_byte(byte: u8, out: &mut Vec<u8>) -> Result<(), Memory>
    ensures { OnOk result (out.new.items ≡ out.old.items ++ byte ∷ []) }
{
    match out.push(byte) {
        Ok(()) => Ok(()),
        Err(_) => Err(Memory),
    }
}

/// Puts bytes last. The error is want of memory.
pub fn put(bytes: &[u8], out: &mut Vec<u8>) -> Result<(), Memory>
    ensures { OnOk result (out.new.items ≡ out.old.items ++ bytes.now) }
{
    match out.extend_from_slice(bytes) {
        Ok(()) => Ok(()),
        Err(_) => Err(Memory),
    }
}

/// The byte that stands for a token.
pub fn byte_of_token(token: Token) -> u8
    ensures { result ≡ token_byte token }
{
    match token {
        Token::SiaDcs => 1,
        Token::AdmCid => 2,
    }
}

fn byte_of_step(step: Step) -> u8
    requires { is_step step ≡ true }
    ensures { result ≡ step_byte step }
{
    match step {
        Step::Premises => 1,
        Step::Holder(number) => number + 1,
        Step::Police => 6,
        Step::Fire => 7,
        Step::Ambulance => 8,
        Step::Guard => 9,
        Step::Note => 10,
    }
}

/// The byte that stands for an outcome.
pub fn byte_of_outcome(outcome: Outcome) -> u8
    ensures { result ≡ outcome_byte outcome }
{
    match outcome {
        Outcome::Reached => 1,
        Outcome::NoAnswer => 2,
        Outcome::Done => 3,
    }
}

fn byte_of_code(code: CloseCode) -> u8
    ensures { result ≡ code_byte code }
{
    match code {
        CloseCode::Real => 1,
        CloseCode::False => 2,
        CloseCode::Test => 3,
    }
}
