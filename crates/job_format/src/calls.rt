// The calls of an accepted job (01, 'Jobs'), one after the other behind its header.
ghost use Rattle.std.specs.Prelude.{◌≡◌};
ghost use Rattle.job_format.specs.Job.{job_call_at};

use crate::fields::{Field, value_length};
use crate::places::{
    STORED_WORD_AT, TILE_NUMBER_AT, TILE_NUMBER_BYTES, WORD_BYTES, WORD_NUMBER_AT,
    WORD_NUMBER_BYTES,
};

// A call that a job holds, and the place of the field behind it. Its tag stays the job's number: the bench's calls take it so.
#[derive(Clone, Copy, Debug, PartialEq, Eq)]
pub struct JobCall {
    pub tag: u64,
    pub tile: u64,
    pub word: u64,
    pub value: u64,
    pub next: usize,
}

// The call in the field at a place, and the place of the next field. An accepted job's calls start behind its header.
// No Option past the job's end: the definition `job_call_at` gives every place a call, and `duzh_run_call` reports its `next`.
#[tactic(auto, using(std::proofs::lemmas::Bool::Decides::nat_tests), unfolding(crate::specs::Job::job_call_at, crate::specs::Job::call_numbers_at))]
pub fn call_at(job: &[u8], at: usize) -> JobCall
    ensures { result ≡ job_call_at job.now at }
{
    if at >= job.len() {
        return JobCall {
            tag: 0,
            tile: 0,
            word: 0,
            value: 0,
            next: at,
        };
    }
    let field = Field { job, at };
    let tag = field.tag();
    let size = value_length(tag);
    JobCall {
        tag,
        tile: field.argument::<TILE_NUMBER_BYTES>(size, TILE_NUMBER_AT),
        word: field.argument::<WORD_NUMBER_BYTES>(size, WORD_NUMBER_AT),
        value: field.argument::<WORD_BYTES>(size, STORED_WORD_AT),
        next: field.next(),
    }
}
