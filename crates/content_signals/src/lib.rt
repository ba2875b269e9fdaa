//! What a message reports: the signals of its content, by the kind of its data (Contact ID: DC-05; SIA: DC-03).
#![tactic(auto)]

ghost use Rattle.std.specs.Prelude.{◌≡◌, [], ◌∷◌, is_some};
ghost use Rattle.alarm_rules.specs.Signals.{signals};

use arc_data::{Signal, Token};

/// The signals of a message's content, in order: one of Contact ID data, 1 to 8 of SIA data. None exactly where the data,
/// which ends before the content's first `]`, is outside the grammar of its token. Takes no memory.
pub fn signals(token: Token, content: &[u8]) -> Option<arc_data::Signals>
    ensures { result ≡ signals token content.now }
{
    match token {
        Token::AdmCid => contact_id::read(content).map(alone),
        Token::SiaDcs => sia_codes::read(content),
    }
}

/// Whether a message's content has signals, as `signals` reads them, none of which is kept. Takes no memory.
pub fn has_signals(token: Token, content: &[u8]) -> bool
    ensures { result ≡ is_some (signals token content.now) }
{
    match token {
        Token::AdmCid => contact_id::read(content).is_some(),
        Token::SiaDcs => sia_codes::read(content).is_some(),
    }
}

// One signal.
fn alone(signal: Signal) -> arc_data::Signals
    ensures { result ≡ signal ∷ [] }
{
    let mut signals = arc_data::Signals::new();
    signals.push(signal);
    signals
}
