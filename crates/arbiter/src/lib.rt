// The home's arbiter: what the home does at each of its calls, decided on the words of a bench before one is written (crate home_words
// makes the move).
// - round_robin (specs/RoundRobin): the tiles that may be taken, and the next of them in 01's circle
// - takings (specs/Takings): 01's taking; decisions (specs/Decisions): the home's other calls
#![tactic(auto)]

mod decisions;
mod round_robin;
mod takings;

pub use decisions::decision_of;
