// Days, times, classes and words of plans by their names.
ghost use Rattle.std.specs.Prelude.{◌≡◌, ◌<◌, ◌≤◌, ◌-◌, ◌%◌, ℕ, [], ◌++◌, codes, IfSome, Some, length};
ghost use Rattle.std.specs.List.{find, position};
ghost use Rattle.std.specs.Str.{bytes_eq};
ghost use Rattle.arc_data.specs.Classes.{name_of};
ghost use Rattle.alarm_rules.specs.SetupWords.{day_named, minute_named, time_text, class_named, planned_named, word_named, name_of_word};

use arc_data::{Class, PlanWord, Planned};

/// The days of a week, from Monday on.
const DAYS: [[u8; 3]; 7] = [
    *b"mon", *b"tue", *b"wed", *b"thu", *b"fri", *b"sat", *b"sun",
];

/// The classes that a plan may be for.
const CLASSES: [Class; 12] = [
    Class::Fire,
    Class::Medical,
    Class::Panic,
    Class::Gas,
    Class::Burglary,
    Class::Tamper,
    Class::Environment,
    Class::CommFail,
    Class::Trouble,
    Class::Irregular,
    Class::LateClose,
    Class::Unlisted,
];

/// The words of plans.
const WORDS: [PlanWord; 7] = [
    PlanWord::Premises,
    PlanWord::Holders,
    PlanWord::Police,
    PlanWord::Fire,
    PlanWord::Ambulance,
    PlanWord::Guard,
    PlanWord::Note,
];

/// The day of the week that a word of three small letters names, from 0 for Monday.
pub(crate) fn day(word: &[u8]) -> Option<u8>
    ensures value { result ≡ day_named word.now }
    ensures small { IfSome result (λ day. day ≤ 6) }
{
    let place = place_of(word, &DAYS)?;
    Some(place as u8)
}

/// Where the word stands among these.
fn place_of(word: &[u8], names: &[[u8; 3]]) -> Option<usize>
    ensures value { result ≡ position (bytes_eq word.now) names.now }
    ensures within { IfSome result (λ place. place < length names.now) }
{
    names.iter().position(|name| word == name.as_slice())
}

/// The minute of the day whose time `HH:MM` the word is, up to the last one. Minute 1440 is `24:00`.
pub(crate) fn minute(last: u16, word: &[u8]) -> Option<u16>
    requires { last ≤ 1440 }
    ensures value { result ≡ minute_named last word.now }
    ensures last { IfSome result (λ minute. minute ≤ last) }
{
    let minute = candidate(word)?;
    if minute <= last && time_text(minute).as_slice() == word {
        Some(minute)
    } else {
        None
    }
}

/// The only minute whose time the word can be. Whether it is that is not looked at.
fn candidate(word: &[u8]) -> Option<u16>
    ensures { (minute : ℕ) → minute ≤ 1440 → word.now ≡ time_text minute → result ≡ Some minute }
{
    let [a, b, _, c, d] = word else {
        return None;
    };
    Some((digit(*a) * 10 + digit(*b)) * 60 + digit(*c) * 10 + digit(*d))
}

/// What a decimal digit stands for. Of another byte it is some number below 10.
fn digit(byte: u8) -> u16
    ensures value { result ≡ (byte - 48) % 10 }
    ensures small { result < 10 }
{
    u16::from(byte.saturating_sub(b'0') % 10)
}

/// The time `HH:MM` of a minute of the day.
fn time_text(minute: u16) -> [u8; 5]
    requires { minute ≤ 1440 }
    ensures { result ≡ time_text minute }
{
    let (hour, minute) = ((minute / 60) as u8, (minute % 60) as u8);
    [
        b'0' + hour / 10,
        b'0' + hour % 10,
        b':',
        b'0' + minute / 10,
        b'0' + minute % 10,
    ]
}

/// The class that a plan line names.
pub(crate) fn class(word: &[u8]) -> Option<Class>
    ensures { result ≡ class_named word.now }
{
    class_among(word, &CLASSES)
}

/// The one of these classes that has this name.
fn class_among(word: &[u8], classes: &[Class]) -> Option<Class>
    ensures { result ≡ find (λ class. bytes_eq word.now (name_of class)) classes.now }
{
    classes
        .iter()
        .copied()
        .find(|class| word == class.name().as_bytes())
}

/// The word of a plan, with or without its mark `@closed`.
pub(crate) fn planned(text: &[u8]) -> Option<Planned>
    ensures { result ≡ planned_named text.now }
{
    if let Some(word) = unmarked(text, &WORDS) {
        return Some(Planned {
            word,
            closed: false,
        });
    }
    let word = marked(text, &WORDS)?;
    Some(Planned { word, closed: true })
}

/// The one of these words that is written so without its mark.
fn unmarked(text: &[u8], words: &[PlanWord]) -> Option<PlanWord>
    ensures { result ≡ find (λ word. bytes_eq text.now (name_of_word word ++ [])) words.now }
{
    words
        .iter()
        .copied()
        .find(|word| text == name_of(*word).as_bytes())
}

/// The one of these words that is written so with its mark.
fn marked(text: &[u8], words: &[PlanWord]) -> Option<PlanWord>
    ensures { result ≡ find (λ word. bytes_eq text.now (name_of_word word ++ codes "@closed")) words.now }
{
    words
        .iter()
        .copied()
        .find(|word| text == marked_name_of(*word).as_bytes())
}

/// How a word is written without its mark.
fn name_of(word: PlanWord) -> &'static str
    ensures { result.now ≡ name_of_word word ++ [] }
{
    match word {
        PlanWord::Premises => "premises",
        PlanWord::Holders => "holders",
        PlanWord::Police => "police",
        PlanWord::Fire => "fire",
        PlanWord::Ambulance => "ambulance",
        PlanWord::Guard => "guard",
        PlanWord::Note => "note",
    }
}

/// How a word is written with its mark.
fn marked_name_of(word: PlanWord) -> &'static str
    ensures { result.now ≡ name_of_word word ++ codes "@closed" }
{
    match word {
        PlanWord::Premises => "premises@closed",
        PlanWord::Holders => "holders@closed",
        PlanWord::Police => "police@closed",
        PlanWord::Fire => "fire@closed",
        PlanWord::Ambulance => "ambulance@closed",
        PlanWord::Guard => "guard@closed",
        PlanWord::Note => "note@closed",
    }
}
