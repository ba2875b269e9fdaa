// An operator of the station.
use arc_data::Txt;

/// An operator: a name of 1 to 16 letters, digits, dots, underscores and hyphens, and the 4 to 8 digits to log in with, which are shown
/// nowhere.
#[derive(Clone, Copy)]
pub struct Operator {
    pub name: Txt,
    pub pin: Txt,
}
