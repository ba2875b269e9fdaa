// Minutes of the local week.
ghost use Rattle.std.specs.Prelude.{◌≡◌, ◌<◌};
ghost use Rattle.jiff_core.specs.Calendar.{IsWithin};
ghost use Rattle.open_schedules.specs.Minutes.{shift_of, week_minute, IsNextAt};

/// The minutes of a week.
pub(crate) const WEEK: u64 = 10_080;

/// The minute of the local week that a minute is, from 0 at the beginning of Monday, where local time is so many minutes
/// ahead of GMT.
pub(crate) fn week_minute(ahead: i64, minute: u64) -> u64
    requires near { IsWithin 1560 ahead }
    requires minute { minute < 4_223_500_000 }
    ensures { result ≡ week_minute ahead minute }
{
    (minute + shift(ahead)) % WEEK
}

/// The first minute after another that has this place in the local week.
pub(crate) fn next_at(ahead: i64, place: u64, after: u64) -> u64
    requires near { IsWithin 1560 ahead }
    requires place { place < 10_080 }
    requires after { after < 4_223_500_000 }
    ensures { IsNextAt ahead place after result }
{
    let now = week_minute(ahead, after);
    after + 1 + (place + WEEK - 1 - now) % WEEK
}

// The minutes that the local clock was past the beginning of a Monday when 1970 began in GMT.
fn shift(ahead: i64) -> u64
    requires { IsWithin 1560 ahead }
    ensures value { result ≡ shift_of ahead }
    ensures small { result < 10_080 }
{
    (ahead + 4320) as u64
}
