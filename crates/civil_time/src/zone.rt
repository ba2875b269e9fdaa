// Time zones, and local time in them.
ghost use Rattle.std.specs.Prelude.{◌≡◌, ◌<◌, ◌*◌, pos, min};
ghost use Rattle.jiff_core.specs.Calendar.{IsWithin};
ghost use Rattle.arc_data.specs.Moments.{IsMoment};
ghost use Rattle.jiff_tz.specs.PosixText.{tz_view};
ghost use Rattle.zone_rules.specs.Zones.{fixed_zone, zone_of, zone_of_rule};
ghost use Rattle.zone_rules.specs.ZonedTime.{last_asked, zoned_day, zoned_minute, zoned_weekday};
ghost use Rattle.civil_time.specs.ZonedMinutes.{minutes_ahead};

use crate::place::Local;
use jiff_core::{Offset, Timestamp};
use jiff_tz::{Abbreviation, posix};
use std::marker::Model;

/// The last second at which a rule is asked, the last one of which jiff has an instant. What holds there holds to the end of 9999.
pub(crate) const LAST_ASKED: u64 = 253_402_207_200;

/// A time zone: a rule of POSIX's variable TZ, or an offset that stays. Contracts see how far standard time is ahead of GMT,
/// and when daylight saving time is how far ahead.
#[derive(Drop)]
pub struct Zone {
    rule: posix::TimeZone,
}

impl Model for Zone {
    ghost use Rattle.zone_rules.specs.Zones.{Zone as Rule, zone_of_rule};
    ghost use Rattle.jiff_tz.specs.PosixText.{tz_view};

    ghost Value = { Rule };

    ghost view = { λ z. zone_of_rule (tz_view z.rule) };
}

impl Zone {
    /// The zone in which local time is GMT plus so many minutes, from -840 to 840.
    pub fn fixed(offset: i16) -> Zone
        requires { IsWithin 840 offset }
        ensures { result ≡ fixed_zone offset }
    {
        let std_offset = Offset {
            seconds: i32::from(offset) * 60,
        };
        let rule = posix::TimeZone {
            std_abbrev: Abbreviation::utc(),
            std_offset,
            dst: None,
        };
        Zone { rule }
    }

    /// The zone that a text names as POSIX's variable TZ does, as `CET-1CEST,M3.5.0,M10.5.0/3`: names of 3 to 15 letters, or
    /// in `<>` of letters, digits and signs; hours behind GMT, up to 24; and wherever daylight saving time has a name, when it
    /// begins and stops. `None` exactly where the text is no such rule.
    pub fn posix(text: &[u8]) -> Option<Zone>
        ensures { result ≡ zone_of text.now }
    {
        match posix::TimeZone::parse(text) {
            Ok(rule) => Some(Zone { rule }),
            Err(_) => None,
        }
    }

    /// A copy. Takes no memory.
    pub fn copy(&self) -> Zone
        ensures { result ≡ self.now }
    {
        Zone { rule: self.rule }
    }

    /// The rule, as jiff keeps it.
    pub(crate) fn rule(&self) -> &posix::TimeZone
        ensures { zone_of_rule (tz_view result.now) ≡ self.now }
    {
        &self.rule
    }

    /// The whole minutes that local time is ahead of GMT, in a minute since 1970.
    pub fn minutes_ahead(&self, minute: u64) -> i64
        requires { minute < 4_223_500_000 }
        ensures value { result ≡ minutes_ahead self.now minute }
        ensures near { IsWithin 1560 result }
    {
        let at = instant(minute);
        i64::from(self.rule.to_offset(at).seconds).div_euclid(60)
    }
}

/// The instant at which a minute begins, or the last one at which a rule is asked.
pub(crate) fn instant(minute: u64) -> Timestamp
    requires { minute < 4_223_500_000 }
    ensures { result.nanosecond ≡ pos (min (minute * 60) last_asked * 1_000_000_000) }
{
    let second = (minute * 60).min(LAST_ASKED);
    Timestamp {
        nanosecond: i128::from(second) * 1_000_000_000,
    }
}

/// The local weekday, minute and day of a moment before the year 10000: those of the whole minute of GMT at or before it. The
/// local day may lie before 1970, or after 9999.
pub fn local(moment: u64, zone: &Zone) -> Local
    requires { IsMoment moment }
    ensures weekday { result.weekday ≡ zoned_weekday zone.now moment }
    ensures minute { result.minute ≡ zoned_minute zone.now moment }
    ensures day { result.day ≡ zoned_day zone.now moment }
{
    let minute = moment / 60;
    let minutes = minute as i64 + zone.minutes_ahead(minute);
    let day = minutes.div_euclid(1440);
    Local {
        weekday: (day + 3).rem_euclid(7) as u8,
        minute: minutes.rem_euclid(1440) as u16,
        day,
    }
}
