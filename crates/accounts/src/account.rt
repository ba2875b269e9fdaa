// An account of the station.
ghost use Rattle.std.specs.Prelude.{◌≡◌, ⊤};

use aes_chain::Key;
use arc_data::Txt;
use open_schedules::Week;
use std::alloc::AllocError;

/// An account of the station: one panel.
#[derive(Drop)]
pub struct Account {
    /// 3 to 16 hexadecimal digits, in capitals.
    pub number: Txt,
    /// What its panel's encrypted messages are encrypted with (DC-09). It is shown nowhere.
    pub key: Option<Key>,
    /// The seconds within which it has to be heard again, from 1 to 1,000,000, where it is supervised.
    pub beat: Option<u64>,
    /// Its opening hours.
    pub week: Week,
    /// How many keyholders it has, at most 4.
    pub holders: u8,
}

impl Clone for Account {
    ghost is_clone = { λ account copy. copy ≡ account };

    ghost is_infallible = { λ account. ⊤ };

    /// A copy, with its key. Takes no memory.
    fn clone(&self) -> Result<Account, AllocError> {
        let key = match &self.key {
            Some(key) => Some(key.copy()),
            None => None,
        };
        Ok(Account {
            number: self.number,
            key,
            beat: self.beat,
            week: self.week.copy(),
            holders: self.holders,
        })
    }
}
