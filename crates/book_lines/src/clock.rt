// The clock of a book, by which moments are told.
ghost use Rattle.std.specs.Prelude.{◌≡◌, IfSome};
ghost use Rattle.arc_data.specs.Moments.{IsMoment};
ghost use Rattle.book_lines.specs.Clocks.{IsNear, IsSmall, is_from, is_up_to, offset_at, reaches, shown, within};

use civil_time::Zone;

/// How far a clock is from GMT.
#[derive(Clone, Copy)]
pub enum Offset {
    /// It is GMT.
    Gmt,
    /// Ahead of GMT by so many minutes, at most 1,560.
    Ahead(u16),
    /// Behind GMT by so many minutes, at most 1,560.
    Behind(u16),
}

/// The clock by which a book tells moments.
#[derive(Drop)]
pub enum Clock {
    /// One that is always as far from GMT.
    Fixed(Offset),
    /// Local time by the rule of a zone.
    Ruled(Zone),
}

// The first second of the year 10000.
const END: u64 = 253_402_300_800;

impl Offset {
    /// What a clock so far from GMT shows at a moment: seconds from 1970 on. None where that is no second of the years from 1970 to 9999.
    pub(crate) fn shown(&self, at: u64) -> Option<u64>
        requires small { IsSmall self.now }
        requires moment { IsMoment at }
        ensures value { result ≡ shown self.now at }
        ensures moment { IfSome result IsMoment }
    {
        match self {
            Offset::Gmt => Some(at),
            Offset::Ahead(minutes) => {
                let shown = at + 60 * u64::from(*minutes);
                if shown < END { Some(shown) } else { None }
            }
            Offset::Behind(minutes) => at.checked_sub(60 * u64::from(*minutes)),
        }
    }

    // Whether a clock so far from GMT shows so many seconds, or more, at a moment.
    fn is_from(&self, first: u64, at: u64) -> bool
        requires small { IsSmall self.now }
        requires first { IsMoment first }
        requires moment { IsMoment at }
        ensures { result ≡ is_from self.now first at }
    {
        match self {
            Offset::Gmt => first <= at,
            Offset::Ahead(minutes) => first <= at + 60 * u64::from(*minutes),
            Offset::Behind(minutes) => first + 60 * u64::from(*minutes) <= at,
        }
    }

    // Whether a clock so far from GMT shows so many seconds, or less, at a moment.
    fn is_up_to(&self, last: u64, at: u64) -> bool
        requires small { IsSmall self.now }
        requires last { IsMoment last }
        requires moment { IsMoment at }
        ensures { result ≡ is_up_to self.now last at }
    {
        match self {
            Offset::Gmt => at <= last,
            Offset::Ahead(minutes) => at + 60 * u64::from(*minutes) <= last,
            Offset::Behind(minutes) => at <= last + 60 * u64::from(*minutes),
        }
    }
}

impl Clock {
    /// How far the clock is from GMT at a moment.
    pub(crate) fn offset(&self, at: u64) -> Offset
        requires near { IsNear self.now }
        requires moment { IsMoment at }
        ensures value { result ≡ offset_at self.now at }
        ensures small { IsSmall result }
    {
        match self {
            Clock::Fixed(offset) => *offset,
            Clock::Ruled(zone) => {
                let minutes = zone.minutes_ahead(at / 60);
                let far = minutes.unsigned_abs() as u16;
                if minutes < 0 {
                    Offset::Behind(far)
                } else {
                    Offset::Ahead(far)
                }
            }
        }
    }

    /// Whether it shows so many seconds, or more, at a moment.
    pub(crate) fn reaches(&self, first: u64, at: u64) -> bool
        requires near { IsNear self.now }
        requires first { IsMoment first }
        requires moment { IsMoment at }
        ensures { result ≡ reaches self.now first at }
    {
        self.offset(at).is_from(first, at)
    }

    /// Whether it shows so many seconds, or less, at a moment.
    pub(crate) fn within(&self, last: u64, at: u64) -> bool
        requires near { IsNear self.now }
        requires last { IsMoment last }
        requires moment { IsMoment at }
        ensures { result ≡ within self.now last at }
    {
        self.offset(at).is_up_to(last, at)
    }
}
