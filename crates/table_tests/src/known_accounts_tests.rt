// What is known of accounts: the rows alone, and with a setup and its deadlines.
mod account_rows;
mod supervised_accounts;
