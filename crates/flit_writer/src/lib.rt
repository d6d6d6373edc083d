// A message written at a place of a lent buffer: specs/Writing of flit_rules.
// Files: refusal (the lowest refusal), message (the flits of a message, at the front of a part), writing (the call).
#![tactic(auto)]

mod message;
mod refusal;
mod writing;

pub use writing::write;
