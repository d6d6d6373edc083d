// A job's calls as calls on a bench, the listing that they give, and the pieces in which it is put into a lent buffer (01, 'Jobs'):
// definitions, with their laws in proofs/. The code is crate jobs.
// - specs/Calls, AnswerLines, Listing: a job's call, the lines of its answer, the whole listing
// - specs/Buffers, Room: lines put into a buffer, and how many bytes a call's lines can be
// - states (specs/RunStates), specs/Pieces: where a run stands between its pieces, and what each piece is
#![tactic(auto)]

mod states;

pub use states::{MOST_CALL_BYTES, Rest, Run};
