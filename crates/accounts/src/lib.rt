//! The setup of a station: the text that says which accounts it has, when they are open, whom to call and who may sit at a desk.
//!
//! A key and a PIN are shown nowhere: nothing that holds one has `Debug` or `Display`, and no fault tells of them.
#![tactic(auto)]

mod account;
mod account_table;
mod entry;
mod keyholders;
mod line;
mod lines;
mod named;
mod operator;
mod operator_table;
mod plan_list;
mod reading;
mod setup;
mod spelled;
mod table;

pub use account::Account;
pub use arc_data::{LineKind, SetupFault};
pub use operator::Operator;
pub use setup::Setup;
pub use spelled::number_between;
