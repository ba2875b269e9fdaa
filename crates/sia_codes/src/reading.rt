// The signals of SIA data.
ghost use Rattle.std.specs.Prelude.{◌≡◌, ◌≤◌, ◌++◌, length, option_to_list, IsSome, MatchOption, Some, None};
ghost use Rattle.std.specs.Bool.{OnFalse, OnTrue};
ghost use Rattle.alarm_rules.specs.SiaCodes.{after_letter, after_slash, sia_signals};
ghost use Rattle.alarm_rules.specs.Signals.{data_of};
ghost use Rattle.sia_codes.specs.Events.{signals_of};

use crate::item::{Item, item_at};
use alarm_signal::{Signal, Signals, data_of};

// The fewest events that data may have. The room for signals is the most.
const FEWEST: usize = 1;

/// The signals of a content with SIA data, in order: one for each event, 1 to 8 of them. None exactly where the data, which
/// ends before the first `]`, is outside the grammar or has another number of events. The code of a signal is its two
/// letters; modifiers, addresses and free text have no effect. Takes no memory.
pub fn read(content: &[u8]) -> Option<Signals>
    ensures { result ≡ sia_signals (data_of content.now) }
{
    let items = after_letter(data_of(content))?;
    let signals = signals_of(items)?;
    if signals.count() < FEWEST {
        return None;
    }
    Some(signals)
}

// What follows the letter that begins the data.
fn after_letter(data: &[u8]) -> Option<&[u8]>
    ensures { MatchOption result (after_letter «data».now ≡ None) (λ rest. after_letter «data».now ≡ Some rest.now) }
{
    match data {
        [b'N' | b'O', rest @ ..] => Some(rest),
        _ => None,
    }
}

// The signals of all items. None where they cannot be read, or where there are more than 8 events.
fn signals_of(items: &[u8]) -> Option<Signals>
    ensures { result ≡ signals_of items.now }
{
    let mut signals = Signals::new();
    let mut rest = after_slash(items);
    while !rest.is_empty() {
        let Item { signal, length } = item_at(rest)?;
        if !put(&mut signals, signal) {
            return None;
        }
        rest = after_slash(&rest[length..]);
    }
    Some(signals)
}

// Puts the signal of an item last, where it has one. False where there is no room for it.
fn put(signals: &mut Signals, signal: Option<Signal>) -> bool
    requires { length signals.old ≤ 8 }
    ensures last { OnTrue result (signals.new ≡ signals.old ++ option_to_list signal) }
    ensures within { OnTrue result (length signals.new ≤ 8) }
    ensures full { OnFalse result ((length signals.old ≡ 8) × IsSome signal) }
{
    match signal {
        Some(signal) => signals.push(signal),
        None => true,
    }
}

// What follows the slash that may stand before an item and after the last one.
fn after_slash(text: &[u8]) -> &[u8]
    ensures value { result.now ≡ after_slash text.now }
    ensures within { length result.now ≤ length text.now }
{
    match text {
        [b'/', rest @ ..] => rest,
        _ => text,
    }
}
