// The home's rules on numbers: which move each of its calls is, before a word is written. The memory's step is in crate home_words.
// - moves (specs/Moves): the numbers by which the home decides, and what its moves are made of: grant, ask the owner, invalidate, leave
// - requests: taking; replies: delivery from a tile; memory: memory ack; eviction: home eviction
// - specs/Steps: what a move makes of the home's block; specs/Results: the rules of document 01 without the tiles; proofs/Rules: that the
//   two are one
#![tactic(auto)]

mod eviction;
mod memory;
pub mod moves;
mod replies;
mod requests;

pub use eviction::evict_line;
pub use memory::memory_ack;
pub use moves::{HomeMove, HomeNumbers, LineSource, Sending};
pub use replies::accept_reply;
pub use requests::take_front;
