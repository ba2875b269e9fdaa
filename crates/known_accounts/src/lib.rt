//! The known accounts: when each was heard, whether it failed, whether it is open, and its last messages; and beside that the setup in force
//! and the deadlines of its accounts: when each is silent, and when it closes late.
#![tactic(auto)]

mod account_rows;
mod deadlines;
mod due;
mod kept_accounts;
mod kept_rows;
mod row;
mod supervised_accounts;
mod uncounted;
mod watched_setup;

pub use account_rows::AccountRows;
pub use accounts::Setup;
pub use arc_data::{Carried, Memory, Message, Opened, Txt};
pub use repeat_window::{Seen, Window};
pub use row::{Known, Row};
pub use supervised_accounts::{AccountPlace, FoundAccount, SupervisedAccounts};
pub use supervision::Places;
pub use watched_setup::WatchedSetup;
