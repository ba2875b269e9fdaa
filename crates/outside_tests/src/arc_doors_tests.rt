// What no clause says of doors and pulses: that calls succeed, and examples with values worked out by hand.
mod datagrams;
mod doors;
mod machine;
mod mails;
mod memory;
mod network;
mod patience;
mod tries;
