// Jobs (01, 'Jobs'): a list of bytes, checked whole before anything is run, and then read. In reading order, each with its file of specs/:
// - places (specs/Places): where the parts of a job stand, and how long they are
// - bytes (specs/Bytes): big-endian numbers in a job
// - fields (specs/Fields, Bytes): the tags, how long their values are, the parts of a field, and the tests on it
// - check (specs/Check): the check of a whole job
// - header, calls (specs/Job): what an accepted job holds
// specs/Accepted says what holds of an accepted job; proofs/Examples has a job for each refusal.
#![tactic(auto)]

mod bytes;
mod calls;
mod check;
mod fields;
mod header;
pub mod places;

pub use calls::{JobCall, call_at};
pub use check::{JobFault, check_job};
pub use header::{line_address, memory, memory_word, tile_count};
