// The front message of lent flits, read: specs/Reading of flit_rules.
// Files: refusal (the lowest refusal), reading (the fields and what else a read answers), data_part (the data, a part of the lent flits).
#![tactic(auto)]

mod data_part;
mod reading;
mod refusal;

pub use data_part::{data_words, data_words_at};
pub use reading::{read, read_at};
