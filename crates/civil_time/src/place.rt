/// Where a moment lies in local time.
#[derive(Clone, Copy, Debug, PartialEq, Eq)]
pub struct Local {
    /// The day of the week: 0 is Monday and 6 is Sunday.
    pub weekday: u8,
    /// The minutes since local midnight, from 0 to 1439.
    pub minute: u16,
    /// The local days since 1 January 1970, which is day 0. Earlier days are negative.
    pub day: i64,
}
