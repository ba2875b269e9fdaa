// What a line of a setup text says.
ghost use Rattle.std.specs.Prelude.{◌≡◌, IfSome, codes};
ghost use Rattle.std.specs.Option.{option_map};
ghost use Rattle.jiff_core.specs.Calendar.{IsWithin};
ghost use Rattle.alarm_rules.specs.SetupWords.{key_spelled, minutes_spelled, number_between};
ghost use Rattle.alarm_rules.specs.SetupLines.{account_line, hours_line, keyholder_line, plan_line, operator_line, lapse_line};
ghost use Rattle.alarm_rules.specs.SetupLines.{declared, is_skipped, optional, plan_words, rule_named, says, target_named, words_of, zone_named};
ghost use Rattle.accounts.specs.Said.{said, said_account, said_hours, said_keyholder, said_plan, said_operator, IsValid, IsValidWindow};

use crate::named::{class, day, minute, planned};
use crate::operator::Operator;
use crate::spelled::{account, is_phone, key, minutes, name, number_between, pin, seconds, zone};
use action_plans::Plan;
use aes_chain::Key;
use alarm_rules::Words;
use arc_data::{Class, Txt, Window};
use civil_time::Zone;

/// The most bytes of a line, without its end.
const LINE_LIMIT: usize = 1024;

/// What a line says.
#[derive(Drop)]
pub(crate) enum Line {
    /// It is empty or a remark.
    Skipped,
    Account(AccountLine),
    Hours(HoursLine),
    Keyholder(KeyholderLine),
    Plan(PlanLine),
    Operator(Operator),
    /// After how many seconds a hold lapses.
    Lapse(u64),
}

/// An account. Its zone is none where the text that names it is no rule.
#[derive(Drop)]
pub(crate) struct AccountLine {
    pub number: Txt,
    pub key: Option<Key>,
    pub beat: Option<u64>,
    pub zone: Option<Zone>,
}

/// A window of an account's opening hours.
#[derive(Drop)]
pub(crate) struct HoursLine {
    pub account: Txt,
    pub window: Window,
}

/// A keyholder of an account.
#[derive(Drop)]
pub(crate) struct KeyholderLine {
    pub account: Txt,
    pub name: Txt,
}

/// The plan of an account for a class, or of all accounts that have none of their own.
#[derive(Drop)]
pub(crate) struct PlanLine {
    pub account: Option<Txt>,
    pub class: Class,
    pub plan: Plan,
}

impl Line {
    /// What a line says, without its end. None where it has more than 1,024 bytes or is of no form.
    pub(crate) fn read(line: &[u8]) -> Option<Line>
        ensures value { option_map said result ≡ says line.now }
        ensures valid { IfSome result IsValid }
    {
        if line.len() > LINE_LIMIT {
            None
        } else if is_skipped(line) {
            Some(Line::Skipped)
        } else {
            declared(line)
        }
    }
}

/// Whether the line declares nothing: it is empty or a remark, which begins with `#`.
fn is_skipped(line: &[u8]) -> bool
    ensures { result ≡ is_skipped line.now }
{
    matches!(line, [] | [b'#', ..])
}

/// What a line declares, by its first word.
fn declared(line: &[u8]) -> Option<Line>
    ensures value { option_map said result ≡ declared (words_of line.now) }
    ensures valid { IfSome result IsValid }
{
    let mut words = Words::of(line);
    match words.next() {
        Some(kind) if kind == b"account".as_slice() => account_line(&mut words).map(Line::Account),
        Some(kind) if kind == b"hours".as_slice() => hours_line(&mut words).map(Line::Hours),
        Some(kind) if kind == b"keyholder".as_slice() => keyholder_line(&mut words).map(
            Line::Keyholder,
        ),
        Some(kind) if kind == b"plan".as_slice() => plan_line(&mut words).map(Line::Plan),
        Some(kind) if kind == b"operator".as_slice() => operator_line(&mut words).map(
            Line::Operator,
        ),
        Some(kind) if kind == b"lapse".as_slice() => lapse_line(&mut words).map(Line::Lapse),
        _ => None,
    }
}

/// The number of an account and its options, each of which may be left out.
fn account_line(words: &mut Words) -> Option<AccountLine>
    ensures { option_map said_account result ≡ account_line words.old }
{
    let Some(word) = words.next() else {
        return None;
    };
    let (Some(number), Some(key), Some(beat), Some(zone), true) = (
        account(word),
        key_option(words),
        beat_option(words),
        zone_option(words),
        words.is_empty(),
    ) else {
        return None;
    };
    Some(AccountLine {
        number,
        key,
        beat,
        zone,
    })
}

/// `key` and a key.
fn key_option(words: &mut Words) -> Option<Option<Key>>
    ensures { option_map (λ key. (key, words.new)) result ≡ optional (codes "key") key_spelled words.old }
{
    match words.option(b"key")? {
        Some(word) => Some(Some(key(word)?)),
        None => Some(None),
    }
}

/// `beat` and the seconds of an interval.
fn beat_option(words: &mut Words) -> Option<Option<u64>>
    ensures { option_map (λ beat. (beat, words.new)) result ≡ optional (codes "beat") (number_between 1 1_000_000) words.old }
{
    match words.option(b"beat")? {
        Some(word) => Some(Some(seconds(word)?)),
        None => Some(None),
    }
}

/// The zone that `offset` or `zone` tells. Without either it is GMT.
fn zone_option(words: &mut Words) -> Option<Option<Zone>>
    ensures { option_map (λ zone. (zone, words.new)) result ≡ zone_named words.old }
{
    match offset_option(words)? {
        Some(minutes) => Some(Some(Zone::fixed(minutes))),
        None => rule_option(words),
    }
}

/// `zone` and the text of a rule. Without it the zone is GMT.
fn rule_option(words: &mut Words) -> Option<Option<Zone>>
    ensures { option_map (λ zone. (zone, words.new)) result ≡ rule_named words.old }
{
    match words.option(b"zone")? {
        Some(word) => Some(zone(word)?),
        None => Some(Some(Zone::fixed(0))),
    }
}

/// `offset` and minutes.
fn offset_option(words: &mut Words) -> Option<Option<i16>>
    ensures value { option_map (λ offset. (offset, words.new)) result ≡ optional (codes "offset") minutes_spelled words.old }
    ensures near { IfSome result (λ offset. IfSome offset (IsWithin 840)) }
{
    match words.option(b"offset")? {
        Some(word) => Some(Some(minutes(word)?)),
        None => Some(None),
    }
}

/// An account, a day and the two times of a window.
fn hours_line(words: &mut Words) -> Option<HoursLine>
    ensures value { option_map said_hours result ≡ hours_line words.old }
    ensures window { IfSome result (λ line. IsValidWindow line.window) }
{
    let (Some(number), Some(day_name), Some(first), Some(second), true) = (
        words.next(),
        words.next(),
        words.next(),
        words.next(),
        words.is_empty(),
    ) else {
        return None;
    };
    let (Some(account), Some(weekday), Some(from), Some(to)) = (
        account(number),
        day(day_name),
        minute(1439, first),
        minute(1440, second),
    ) else {
        return None;
    };
    if to <= from {
        return None;
    }
    let window = Window { weekday, from, to };
    Some(HoursLine { account, window })
}

/// An account, a name and a telephone number.
fn keyholder_line(words: &mut Words) -> Option<KeyholderLine>
    ensures { option_map said_keyholder result ≡ keyholder_line words.old }
{
    let (Some(number), Some(holder), Some(phone), true) = (
        words.next(),
        words.next(),
        words.next(),
        words.is_empty(),
    ) else {
        return None;
    };
    match (account(number), name(holder), is_phone(phone)) {
        (Some(account), Some(name), true) => Some(KeyholderLine { account, name }),
        _ => None,
    }
}

/// An account or `*`, a class and the words of a plan.
fn plan_line(words: &mut Words) -> Option<PlanLine>
    ensures { option_map said_plan result ≡ plan_line words.old }
{
    let (Some(whose), Some(class_name)) = (words.next(), words.next()) else {
        return None;
    };
    match (target(whose), class(class_name), plan_words(words)) {
        (Some(account), Some(class), Some(plan)) => Some(PlanLine {
            account,
            class,
            plan,
        }),
        _ => None,
    }
}

/// Whose plan it is: that of an account, or with `*` that of all accounts.
fn target(word: &[u8]) -> Option<Option<Txt>>
    ensures { result ≡ target_named word.now }
{
    if word == b"*".as_slice() {
        Some(None)
    } else {
        Some(Some(account(word)?))
    }
}

/// At least one word of a plan, none of them twice.
fn plan_words(words: &mut Words) -> Option<Plan>
    ensures { result ≡ plan_words words.old }
{
    let mut plan = Plan::new();
    if words.is_empty() {
        return None;
    }
    while let Some(word) = words.next() {
        let planned = planned(word)?;
        if !plan.add(planned.word, planned.closed) {
            return None;
        }
    }
    Some(plan)
}

/// A name and a PIN.
fn operator_line(words: &mut Words) -> Option<Operator>
    ensures { option_map said_operator result ≡ operator_line words.old }
{
    let (Some(name_word), Some(digits), true) = (words.next(), words.next(), words.is_empty())
    else {
        return None;
    };
    match (name(name_word), pin(digits)) {
        (Some(name), Some(pin)) => Some(Operator { name, pin }),
        _ => None,
    }
}

/// The seconds after which a hold lapses, from 60 to 86,400.
fn lapse_line(words: &mut Words) -> Option<u64>
    ensures { result ≡ lapse_line words.old }
{
    match (words.next(), words.is_empty()) {
        (Some(word), true) => number_between(60, 86_400, word),
        _ => None,
    }
}
