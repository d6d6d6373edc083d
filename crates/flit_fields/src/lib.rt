// The fields of a message and its header flits: where each field stands, and how it is cut out and set. The definitions are specs/Words of
// flit_rules. Files: places (place and width of each field), cutting, setting.
#![tactic(auto)]

mod cutting;
pub mod places;
mod setting;

pub use cutting::header_of;
pub use setting::{flit1, flit2, flit3};
