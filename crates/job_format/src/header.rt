// The header of an accepted job (01, 'Jobs').
ghost use Rattle.std.specs.Prelude.{◌≡◌};
ghost use Rattle.job_format.specs.Job.{tile_count_of, line_address_of, memory_word_of, memory_words_of};

use crate::bytes::big_at;
use crate::places::{
    LINE_ADDRESS_AT, LINE_ADDRESS_BYTES, MEMORY_AT, TILE_COUNT_AT, TILE_COUNT_BYTES, WORD_BYTES,
};
use numbers::limits::LINE_LENGTH;
use std::array;

#[tactic(auto, unfolding(crate::specs::Job::tile_count_of))]
pub fn tile_count(job: &[u8]) -> u64
    ensures { result ≡ tile_count_of job.now }
{
    big_at::<TILE_COUNT_BYTES>(job, TILE_COUNT_AT)
}

#[tactic(auto, unfolding(crate::specs::Job::line_address_of))]
pub fn line_address(job: &[u8]) -> u64
    ensures { result ≡ line_address_of job.now }
{
    big_at::<LINE_ADDRESS_BYTES>(job, LINE_ADDRESS_AT)
}

// One of the eight words of memory, 0 for any other.
#[tactic(auto, using(std::proofs::lemmas::Bool::Decides::nat_tests), unfolding(crate::specs::Job::memory_word_of))]
pub fn memory_word(job: &[u8], word: usize) -> u64
    ensures { result ≡ memory_word_of job.now word }
{
    if word < LINE_LENGTH {
        big_at::<WORD_BYTES>(job, MEMORY_AT + word * WORD_BYTES)
    } else {
        0
    }
}

// All eight of them.
pub fn memory(job: &[u8]) -> [u64; LINE_LENGTH]
    ensures { result ≡ memory_words_of job.now }
{
    array::from_fn(|word| memory_word(job, word))
}
