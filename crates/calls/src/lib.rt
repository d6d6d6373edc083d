// Each call on lent words, as definitions: document 01's step of the bench that the words are. The code that does it is crate bench.
// - specs/Calls: what words are a bench, the answer to a call, the words after it, and start; lent words as a machine of crate protocol
// - answers: what a call answers; tile_calls, home_calls (specs/Numbered): the calls by their numbers, a function for each, so that who makes
//   one names the call and no tag (must-fail/load_stores and its like say what each promises)
#![tactic(auto)]

mod answers;
mod home_calls;
mod tile_calls;

pub use answers::{Accepted, Answer, told};
pub use home_calls::{HomeCall, from_tile, home_eviction, memory_ack, memory_step, taking};
pub use tile_calls::{TileCall, evict, is_tile_call, load, store, to_tile};
