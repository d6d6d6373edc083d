// What the functions for C are given in lent words: a start's memory words, a message's fields, the numbers of a call's answer.
// - starting, fields, writing, sent (specs/Arguments, in this order)
#![tactic(auto)]

pub mod fields;
mod sent;
mod starting;
mod writing;

pub use sent::write_sent;
pub use starting::start_from;
pub use writing::write_from;
