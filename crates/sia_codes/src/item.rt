// The items of SIA data.
ghost use Rattle.std.specs.Prelude.{◌≡◌, ◌+◌, ◌<◌, ◌≤◌, drop, length, IfSome};
ghost use Rattle.std.specs.List.{before_first, take_while};
ghost use Rattle.std.specs.Option.{option_map};
ghost use Rattle.arc_data.specs.Digits.{is_capital_hex};
ghost use Rattle.alarm_rules.specs.SiaCodes.{address_at, is_lower, is_modifier_byte, is_slash, is_upper, item_at};
ghost use Rattle.sia_codes.specs.Items.{kept_of};

use crate::meaning::signal_of;
use alarm_signal::Signal;

// An item: its signal, where it is an event, and how many bytes it has.
#[derive(Clone, Copy)]
pub struct Item {
    pub signal: Option<Signal>,
    pub length: usize,
}

// The item that begins a text. None where none does.
#[tactic(auto, unfolding(alarm_rules::specs::SiaCodes::item_at))]
pub fn item_at(text: &[u8]) -> Option<Item>
    ensures value { result ≡ option_map kept_of (item_at text.now) }
    ensures some_bytes { IfSome result (λ item. 0 < item.length) }
    ensures within { IfSome result (λ item. item.length ≤ length text.now) }
{
    let [first, second, rest @ ..] = text else {
        return None;
    };
    if is_lower(*first) && is_lower(*second) {
        return Some(Item {
            signal: None,
            length: 2 + run_length(rest),
        });
    }
    if is_upper(*first) && is_upper(*second) {
        return Some(Item {
            signal: Some(signal_of(*first, *second)),
            length: 2 + event_length(rest),
        });
    }
    None
}

// How many bytes an event has after its code: those of the address, and then all up to the next slash.
fn event_length(rest: &[u8]) -> usize
    ensures value { result ≡ length (address_at rest.now) + length (before_first is_slash (drop (length (address_at rest.now)) rest.now)) }
    ensures within { result ≤ length rest.now }
{
    let address = address_length(rest);
    address + text_length(&rest[address..])
}

// How many bytes the address has that begins a text, at most 8.
fn address_length(rest: &[u8]) -> usize
    ensures value { result ≡ length (address_at rest.now) }
    ensures within { result ≤ length rest.now }
{
    rest.iter()
        .take(8)
        .take_while(|byte| is_capital_hex(**byte))
        .count()
}

// How many bytes stand before the next slash or the end.
fn text_length(rest: &[u8]) -> usize
    ensures value { result ≡ length (before_first is_slash rest.now) }
    ensures within { result ≤ length rest.now }
{
    rest.iter().take_while(|byte| **byte != b'/').count()
}

// How many bytes the run of a modifier has.
fn run_length(rest: &[u8]) -> usize
    ensures value { result ≡ length (take_while is_modifier_byte rest.now) }
    ensures within { result ≤ length rest.now }
{
    rest.iter()
        .take_while(|byte| is_modifier_byte(**byte))
        .count()
}

fn is_modifier_byte(byte: u8) -> bool
    ensures { result ≡ is_modifier_byte byte }
{
    matches!(byte, b'0'..=b'9' | b':' | b'-' | b'.')
}

fn is_capital_hex(byte: u8) -> bool
    ensures { result ≡ is_capital_hex byte }
{
    matches!(byte, b'0'..=b'9' | b'A'..=b'F')
}

fn is_lower(byte: u8) -> bool
    ensures { result ≡ is_lower byte }
{
    byte.is_ascii_lowercase()
}

fn is_upper(byte: u8) -> bool
    ensures { result ≡ is_upper byte }
{
    byte.is_ascii_uppercase()
}
