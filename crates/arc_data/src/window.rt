// A window of the opening hours of a week.

/// A part of one day of the week, in local time. Opening hours are a list of these.
#[derive(Clone, Copy, Debug, PartialEq, Eq)]
pub struct Window {
    /// The day of the week: 0 is Monday and 6 is Sunday.
    pub weekday: u8,
    /// The first minute of the day that it holds.
    pub from: u16,
    /// The first minute after those that it holds. 1440 is the end of the day.
    pub to: u16,
}
