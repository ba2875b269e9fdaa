// Names and ranks of classes, the data of a content, and how many signals have room.
use crate::checks::{holds, same, same_bytes, same_text, short};
use alarm_signal::{Class, Kind, Signal, Signals, Txt, data_of};
use std::process::Abort;

#[test]
fn names_and_ranks_each_class(rt: HostRuntime) {
    is_called(&rt, Class::Fire, 1, "fire");
    is_called(&rt, Class::Medical, 1, "medical");
    is_called(&rt, Class::Panic, 1, "panic");
    is_called(&rt, Class::Gas, 2, "gas");
    is_called(&rt, Class::Burglary, 2, "burglary");
    is_called(&rt, Class::Tamper, 3, "tamper");
    is_called(&rt, Class::Environment, 3, "environment");
    is_called(&rt, Class::CommFail, 3, "commfail");
    is_called(&rt, Class::Trouble, 4, "trouble");
    is_called(&rt, Class::Irregular, 4, "irregular");
    is_called(&rt, Class::LateClose, 4, "lateclose");
    is_called(&rt, Class::Unlisted, 4, "unlisted");
    is_called(&rt, Class::Test, 0, "test");
    is_called(&rt, Class::OpenClose, 0, "openclose");
    is_called(&rt, Class::Bypass, 0, "bypass");
    is_called(&rt, Class::Cancel, 0, "cancel");
    is_called(&rt, Class::Program, 0, "program");
}

fn is_called(rt: &impl Abort, class: Class, priority: u64, name: &str) {
    same(rt, u64::from(class.priority()), priority, name);
    same_text(rt, class.name(), name, "the name");
}

#[test]
fn cuts_the_data_off_a_content(rt: HostRuntime) {
    has_data(&rt, "", "");
    has_data(&rt, "]", "");
    has_data(&rt, "1131 01 001", "1131 01 001");
    has_data(&rt, "NFA129][S123Main St., 55123", "NFA129");
    has_data(&rt, "NBA][a][b", "NBA");
    has_data(&rt, "]NBA", "");
    has_data(&rt, "[NBA", "[NBA");
}

fn has_data(rt: &impl Abort, content: &str, want: &str) {
    let told = data_of(content.as_bytes());
    same_bytes(rt, told, want.as_bytes(), content);
}

#[test]
fn has_room_for_eight_signals(rt: HostRuntime) {
    let mut signals = Signals::new();
    same(&rt, signals.count() as u64, 0, "no signals");
    for code in ["BA", "BR", "FA", "FR", "GA", "GR", "TA", "TR"] {
        let added = signals.push(gas(&rt, code));
        holds(&rt, added, code);
    }
    let ninth = Signal {
        class: Class::Fire,
        kind: Kind::Restore,
        code: Txt::empty(),
    };
    holds(&rt, !signals.push(ninth), "a ninth signal");
    assert!(&rt; signals.count() == 8);
    same_bytes(&rt, signals.at(0).code.bytes(), b"BA", "the first");
    same_bytes(&rt, signals.at(7).code.bytes(), b"TR", "the last");
}

fn gas(rt: &impl Abort, code: &str) -> Signal {
    Signal {
        class: Class::Gas,
        kind: Kind::New,
        code: short(rt, code),
    }
}
