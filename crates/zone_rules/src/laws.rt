// The laws of zones.
ghost use Rattle.zone_rules.specs.Laws.{FixedZonesAreOffsets, ZonesAreJiffs, MomentsHaveYears, ClocksChangeAtChanges, DaylightLasts, DaylightRunsOver};

/// Where local time is GMT plus so many minutes all the year, the local day, minute and weekday are those of that offset.
pub fn law_fixed_zones_are_offsets()
    ensures { FixedZonesAreOffsets }
{}

/// A rule has at each second the offset that jiff gives.
pub fn law_zones_are_jiffs()
    ensures { ZonesAreJiffs }
{}

/// Each moment lies in its year.
pub fn law_moments_have_years()
    ensures { MomentsHaveYears }
{}

/// Within a year the clock changes only where daylight saving time begins or stops.
pub fn law_clocks_change_at_changes()
    ensures { ClocksChangeAtChanges }
{}

/// In the north daylight saving time is in force from where it begins to where it stops.
pub fn law_daylight_lasts()
    ensures { DaylightLasts }
{}

/// In the south it is in force over the new year.
pub fn law_daylight_runs_over()
    ensures { DaylightRunsOver }
{}
