// Steps that one key records, one behind another.

/// Which steps a series records, and as what.
#[derive(Clone, Copy)]
pub enum Kind {
    /// Each step that is no call, as done.
    Tasks,
    /// The calls of keyholders, as not answered.
    Unanswered,
    /// The call of this keyholder as reached, and those before it as not answered.
    Reaching(u8),
}

/// A series that a key began: which incident it is for, how many of its steps the desk has recorded, and whether it goes on.
#[derive(Clone, Copy)]
pub struct Series {
    pub kind: Kind,
    pub number: u64,
    pub recorded: u64,
    pub is_on: bool,
}
