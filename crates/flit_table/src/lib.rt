// 01's table of types, as code: the row of each type number, and its network. The definition is specs/Table of flit_rules.
// Files: entries (the table, a number for each type), rows (the row that an entry says).
#![tactic(auto)]

mod entries;
mod rows;

pub use rows::{network, type_row};
