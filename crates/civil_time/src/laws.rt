// The laws of dates, stamps and local time.
ghost use Rattle.civil_time.specs.Laws.{DatesAreCounted, DatesAreReached, MomentsEnd, StampsDiffer, StampsAreRead, StampsArePlain, LocalTimesAddUp};

/// The date of each day number is in the calendar, and that many days lie between 1 January 1970 and it.
pub fn law_dates_are_counted()
    ensures { DatesAreCounted }
{}

/// Each date from 1970 to the end of 9999 is the date of its day number.
pub fn law_dates_are_reached()
    ensures { DatesAreReached }
{}

/// The moments are the seconds through the end of 9999.
pub fn law_moments_end()
    ensures { MomentsEnd }
{}

/// Two different moments have different stamps.
pub fn law_stamps_differ()
    ensures { StampsDiffer }
{}

/// The moment of a text is the one whose stamp the text is.
pub fn law_stamps_are_read()
    ensures { StampsAreRead }
{}

/// A stamp has 20 printable bytes, and none of them is a bar.
pub fn law_stamps_are_plain()
    ensures { StampsArePlain }
{}

/// A local day, minute and weekday add up to the minute of the moment and the zone's offset in it.
pub fn law_local_times_add_up()
    ensures { LocalTimesAddUp }
{}
