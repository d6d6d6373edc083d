// The tests of a message, each by the refusal that is given where it fails: specs/Rules of flit_rules.
// Row and header stay two arguments: each rule of specs/Rules is of a type's row and a message's fields.
// Files: types (11 and 12), ports (14), reserved (15), fields (16: too wide, absent, not allowed).
#![tactic(auto)]

mod fields;
mod ports;
mod reserved;
mod types;

pub use fields::fields_allowed;
pub use ports::ports_listed;
pub use reserved::reserved_clear;
pub use types::{in_table, length_allowed};
