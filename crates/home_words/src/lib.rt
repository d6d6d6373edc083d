// A move of the home (crate home_rules) made on the words of a bench: it writes only what it changes, and its refusal is known before a
// word is written.
// - fields: the numbers of the home's block, read and written where they stand
// - moves: what a move changes in the home's block; forwards: its message put on NoC2 of every tile of a mask
// - commits: a move made with all that it sends; memory: the memory's step
// - specs/InPlace, specs/Forwards, specs/Commits: what these promise, as devices of the proofs
// The words stay a lent slice beside their tile count (HoldTiles), here and in crates arbiter and bench: bench's calls get the slice alone
// and read the count in it, so a struct around the two would be made anew at each call, and its words given back to the slice.
#![tactic(auto)]

use layout::places::HOME_WORDS;

mod commits;
mod fields;
mod forwards;
mod memory;
mod moves;

// The words of the home's block, at the front of a bench's.
type Home = [u64; HOME_WORDS];

pub use commits::{Decision, commit};
pub use fields::read_numbers;
pub use memory::memory_step;
