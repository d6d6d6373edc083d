// A bench in lent words: start, and the nine calls of document 01 ('The bench'). Each promises its answer and the words after it, for every
// input, by crate calls' answer_to and after_call.
// - starting: start; tile: the calls at a tile; home: the calls at the home
// - specs/Serves: a device of the proofs
// at_tile and at_home take a tag of any value, and so a number: every tag has its answer. The nine calls stand by name beside them:
// docs/PROVED.md names each.
#![tactic(auto)]

mod home;
mod starting;
mod tile;

pub use calls::Answer;
pub use home::{at_home, from_tile, home_eviction, memory_ack, memory_step, taking};
pub use starting::start;
pub use tile::{at_tile, evict, load, store, to_tile};
pub use well_formed::well_formed;
