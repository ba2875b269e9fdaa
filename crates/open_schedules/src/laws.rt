// What the hours of a week in a zone add up to.
ghost use Rattle.open_schedules.specs.Laws.{HoursAreMinutes, ClosesBeginMinutes, NextCloseIsFirst, FixedZonesKeepHours};

/// The seconds of a minute are all in hours, or none is.
pub fn law_hours_are_minutes()
    ensures { HoursAreMinutes }
{}

/// Hours close at the beginning of a minute.
pub fn law_closes_begin_minutes()
    ensures { ClosesBeginMinutes }
{}

/// What is found minute by minute is the first closing moment within 60 days.
pub fn law_next_close_is_first()
    ensures { NextCloseIsFirst }
{}

/// With an offset that stays, the hours and their next close are those of that offset.
pub fn law_fixed_zones_keep_hours()
    ensures { FixedZonesKeepHours }
{}
