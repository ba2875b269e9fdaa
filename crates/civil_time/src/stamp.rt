// Stamps: the text of a moment, how it is read, and whether it is fresh.
ghost use Rattle.std.specs.Prelude.{◌≡◌, ◌↔◌, ◌+◌, ◌*◌, ◌/◌, ◌%◌, ◌<◌, ◌≤◌, ℕ, pos, IsTrue, IfSome, IfNone, length, slice_index, slice_set};
ghost use Rattle.jiff_core.specs.Calendar.{IsCivilDate, days_from_civil};
ghost use Rattle.jiff_core.specs.Date.{epoch_day};
ghost use Rattle.arc_data.specs.Moments.{IsMoment};
ghost use Rattle.civil_time.specs.Stamp.{IsStampOf, stamp, stamp_time, is_fresh};

use jiff::civil::Date;
use jiff_core::civil;

/// The first second of the year 10000.
const END: u64 = 253_402_300_800;

/// The seconds of a day.
const DAY: u64 = 86_400;

/// The stamp `_HH:MM:SS,MM-DD-YYYY` of a moment in GMT, as ANSI/SIA DC-09 writes it. The moment lies before the year 10000.
pub fn stamp_of(moment: u64) -> [u8; 20]
    requires { IsMoment moment }
    ensures { result ≡ stamp moment }
{
    let date = date_at(moment);
    let year = u64::from(date.year().unsigned_abs());
    let (month, day) = (date.month() as u64, date.day() as u64);
    let mut stamp = *b"_00:00:00,00-00-0000";
    put_digits(&mut stamp, 1, moment / 3600 % 24);
    put_digits(&mut stamp, 4, moment / 60 % 60);
    put_digits(&mut stamp, 7, moment % 60);
    put_digits(&mut stamp, 10, month);
    put_digits(&mut stamp, 13, day);
    put_digits(&mut stamp, 16, year / 100);
    put_digits(&mut stamp, 18, year % 100);
    stamp
}

/// The moment from 1970 to the end of 9999 whose stamp the bytes are. `None` where they are no such stamp, of whatever
/// length.
pub fn read_stamp(bytes: &[u8]) -> Option<u64>
    ensures some { IfSome result (λ t. IsStampOf t bytes.now) }
    ensures none { IfNone result ((t : ℕ) → IsMoment t → ¬ (bytes.now ≡ stamp t)) }
    ensures value { result ≡ stamp_time bytes.now }
{
    let moment = candidate(bytes)?;
    if stamp_of(moment).as_slice() == bytes {
        Some(moment)
    } else {
        None
    }
}

/// Whether the moment of a stamp is at most 40 seconds older and at most 20 seconds newer than that of the clock, both
/// ends included. Both lie before the year 10000.
pub fn fresh(stamp: u64, now: u64) -> bool
    requires stamp { IsMoment stamp }
    requires now { IsMoment now }
    ensures value { result ≡ is_fresh stamp now }
    ensures within { IsTrue result ↔ ((now ≤ stamp + 40) × (stamp ≤ now + 20)) }
{
    now <= stamp + 40 && stamp <= now + 20
}

// The day that a moment lies in.
fn date_at(moment: u64) -> Date
    requires { IsMoment moment }
    ensures { epoch_day result ≡ pos (moment / 86_400) }
{
    // 4,371,587 days lie between jiff's first day and 1 January 1970.
    Date::from_plain(civil::Date::from_days_since_min((moment / DAY) as u32 + 4_371_587))
}

// Writes the two digits of a number at a place.
fn put_digits(stamp: &mut [u8; 20], place: usize, n: u64)
    requires place { place < 19 }
    requires small { n < 100 }
    ensures { stamp.new ≡ slice_set (slice_set stamp.old place (48 + n / 10)) (place + 1) (48 + n % 10) }
{
    stamp[place] = b'0' + (n / 10) as u8;
    stamp[place + 1] = b'0' + (n % 10) as u8;
}

// The number that the two digits at a place give. Of other bytes it is some number.
fn number_at(bytes: &[u8], place: usize) -> u64
    requires { place + 1 < length bytes.now }
    ensures small { result < 100 }
    ensures value { (n : ℕ) → n < 100 → slice_index bytes.now place ≡ 48 + n / 10
        → slice_index bytes.now (place + 1) ≡ 48 + n % 10 → result ≡ n }
{
    let tens = bytes[place].saturating_sub(b'0') % 10;
    let ones = bytes[place + 1].saturating_sub(b'0') % 10;
    u64::from(tens) * 10 + u64::from(ones)
}

// The moment of a date and a second of that day, from 1970 to the end of 9999.
fn moment_at(year: u64, month: u64, day: u64, second: u64) -> Option<u64>
    requires year { year < 10_000 }
    requires month { month < 100 }
    requires day { day < 100 }
    requires second { second < 1_000_000 }
    ensures moment { IfSome result (λ t. IsMoment t) }
    ensures only { (t : ℕ) → IsMoment t → IsCivilDate (pos year) month day
        → days_from_civil (pos year) month day ≡ pos (t / 86_400) → t % 86_400 ≡ second → result ≡ Some t }
{
    let date = Date::new(year as i16, month as i8, day as i8).ok()?;
    let days = u64::try_from(date.to_plain().to_unix_epoch_day()).ok()?;
    Some(days * DAY + second).filter(|&moment| moment < END)
}

// The only moment whose stamp the bytes can be. Whether they are is not looked at.
fn candidate(bytes: &[u8]) -> Option<u64>
    ensures moment { IfSome result (λ t. IsMoment t) }
    ensures only { (t : ℕ) → IsMoment t → bytes.now ≡ stamp t → result ≡ Some t }
{
    if bytes.len() != 20 {
        return None;
    }
    let second = number_at(bytes, 1) * 3600 + number_at(bytes, 4) * 60 + number_at(bytes, 7);
    let year = number_at(bytes, 16) * 100 + number_at(bytes, 18);
    moment_at(year, number_at(bytes, 10), number_at(bytes, 13), second)
}
