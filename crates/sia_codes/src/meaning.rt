// The class and kind of an event code.
ghost use Rattle.std.specs.Prelude.{◌≡◌, [], ◌∷◌, IsTrue};
ghost use Rattle.alarm_rules.specs.SiaCodes.{is_upper, sia_meaning, sia_signal};

use alarm_signal::{Class, Kind, Signal, Txt};

// The class and kind of the code of two upper-case letters.
#[tactic(auto, using(crate::proofs::Sweeps::by_letters_is, std::proofs::lemmas::Bool::Decides::nat_tests))]
pub fn meaning_of(first: u8, second: u8) -> (Class, Kind)
    requires upper_first { IsTrue (is_upper first) }
    requires upper_second { IsTrue (is_upper second) }
    ensures { result ≡ sia_meaning (first ∷ second ∷ []) }
{
    match (first, second) {
        (b'F' | b'K', b'A') => (Class::Fire, Kind::New),
        (b'F', b'H') | (b'F' | b'K', b'R') => (Class::Fire, Kind::Restore),
        (b'M' | b'Q', b'A') => (Class::Medical, Kind::New),
        (b'M' | b'Q', b'R') => (Class::Medical, Kind::Restore),
        (b'H' | b'P', b'A') => (Class::Panic, Kind::New),
        (b'H' | b'P', b'R') => (Class::Panic, Kind::Restore),
        (b'G', b'A') => (Class::Gas, Kind::New),
        (b'G', b'R') => (Class::Gas, Kind::Restore),
        (b'B', b'A' | b'V') | (b'U', b'A') => (Class::Burglary, Kind::New),
        (b'B' | b'U', b'R') => (Class::Burglary, Kind::Restore),
        (b'T', b'A') => (Class::Tamper, Kind::New),
        (b'T', b'R') => (Class::Tamper, Kind::Restore),
        (b'W' | b'Z', b'A') => (Class::Environment, Kind::New),
        (b'W' | b'Z', b'R') => (Class::Environment, Kind::Restore),
        (b'Y', b'C') => (Class::CommFail, Kind::New),
        (b'Y', b'K') => (Class::CommFail, Kind::Restore),
        (b'A' | b'B' | b'F' | b'Y', b'T') => (Class::Trouble, Kind::New),
        (b'A' | b'Y', b'R') | (b'B' | b'F', b'J') => (Class::Trouble, Kind::Restore),
        (b'C', b'I') => (Class::LateClose, Kind::New),
        (b'O', b'P' | b'G' | b'R') => (Class::OpenClose, Kind::Opening),
        (b'C', b'L' | b'F' | b'G') => (Class::OpenClose, Kind::Closing),
        (b'B', b'B' | b'U') => (Class::Bypass, Kind::LogOnly),
        (b'B', b'C') => (Class::Cancel, Kind::LogOnly),
        (b'R', b'P' | b'X') => (Class::Test, Kind::LogOnly),
        _ => (Class::Unlisted, Kind::New),
    }
}

// The signal of the code of two upper-case letters.
pub fn signal_of(first: u8, second: u8) -> Signal
    requires upper_first { IsTrue (is_upper first) }
    requires upper_second { IsTrue (is_upper second) }
    ensures { result ≡ sia_signal (first ∷ second ∷ []) }
{
    let (class, kind) = meaning_of(first, second);
    Signal {
        class,
        kind,
        code: Txt::of(&[first, second]).unwrap(),
    }
}
