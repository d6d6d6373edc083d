// The tags of a job's fields, the parts of a field, and the tests on it (01, 'Jobs').
ghost use Rattle.std.specs.Prelude.{◌≡◌, ◌+◌, ◌≤◌, ◌<◌, ◌^◌, length};
ghost use Rattle.numbers.specs.Limits.{most_job_bytes, word_bytes};
ghost use Rattle.job_format.specs.Places.{head_bytes};
ghost use Rattle.job_format.specs.Bytes.{big_at, tag_at, length_at, next_at};
ghost use Rattle.job_format.specs.Fields.{is_tag, value_length, tag_in_place, good_value, told_field, field_refusal};
ghost use Rattle.job_format.specs.Job.{argument_at};

use crate::bytes::{big_at, byte_at};
use crate::places::{
    HEAD_BYTES, HEADER_FIELDS, LENGTH_AT, LENGTH_BYTES, LINE_ADDRESS_BYTES, LOAD_BYTES,
    MEMORY_BYTES, STORE_BYTES, TILE_COUNT_BYTES, TILE_NUMBER_BYTES,
};
use numbers::limits::{LINE_BYTES, MOST_TILES};
use numbers::refusals::Refusal;
use numbers::tags::{
    TAG_EVICT, TAG_FROM_TILE, TAG_HOME_EVICTION, TAG_LINE, TAG_LOAD, TAG_MEMORY, TAG_STORE,
    TAG_TILES, TAG_TO_TILE,
};

// ---- tags

#[tactic(auto, using(std::proofs::lemmas::Bool::Decides::nat_tests), unfolding(crate::specs::Fields::is_tag))]
fn is_tag(tag: u64) -> bool
    ensures { result ≡ is_tag tag }
{
    matches!(tag, TAG_TILES..=TAG_MEMORY | TAG_LOAD..=TAG_HOME_EVICTION)
}

// How long the value of a tag is: a table, a length for each tag.
#[tactic(auto, using(std::proofs::lemmas::Bool::Decides::nat_tests), unfolding(crate::specs::Fields::value_length))]
pub fn value_length(tag: u64) -> usize
    ensures { result ≡ value_length tag }
{
    match tag {
        TAG_TILES => TILE_COUNT_BYTES,
        TAG_LINE => LINE_ADDRESS_BYTES,
        TAG_MEMORY => MEMORY_BYTES,
        TAG_LOAD => LOAD_BYTES,
        TAG_STORE => STORE_BYTES,
        TAG_EVICT | TAG_TO_TILE | TAG_FROM_TILE => TILE_NUMBER_BYTES,
        _ => 0,
    }
}

// The place of a field, `before` fields standing before it.
#[tactic(auto, using(std::proofs::lemmas::Bool::Decides::nat_tests), unfolding(crate::specs::Fields::tag_in_place))]
fn tag_in_place(before: usize, tag: u64) -> bool
    requires { before < 2 ^ 63 }
    ensures { result ≡ tag_in_place before tag }
{
    if before < HEADER_FIELDS {
        tag == before as u64 + TAG_TILES
    } else {
        TAG_LOAD <= tag
    }
}

// ---- fields

// A field of a job, by the place of its first byte.
#[derive(Clone, Copy)]
pub struct Field<'a> {
    pub job: &'a [u8],
    pub at: usize,
    pub ghost inside: { at ≤ length job.now },
}

impl Field<'_> {
    pub fn tag(self) -> u64
        ensures { result ≡ tag_at self.entry.job.now self.entry.at }
    {
        byte_at(self.job, self.at)
    }

    // The length that it gives for its value.
    fn said_length(self) -> usize
        ensures { (result ≡ length_at self.entry.job.now self.entry.at) × (result < most_job_bytes) }
    {
        big_at::<LENGTH_BYTES>(self.job, self.at + LENGTH_AT) as usize
    }

    // The place of the next one.
    pub fn next(self) -> usize
        ensures { result ≡ next_at self.entry.job.now self.entry.at }
    {
        self.at + HEAD_BYTES + self.said_length()
    }

    // The number that so many bytes of the value are, from one of them on.
    fn number<const COUNT: usize>(self, within: usize) -> u64
        requires { (COUNT ≤ word_bytes) × (within ≤ word_bytes) }
        ensures { result ≡ big_at COUNT self.entry.job.now (self.entry.at + head_bytes + within) }
    {
        big_at::<COUNT>(self.job, self.at + HEAD_BYTES + within)
    }

    // The argument that stands at `within` of the value, which is `size` bytes; 0 where the value ends before it.
    #[tactic(auto, using(std::proofs::lemmas::Bool::Decides::nat_tests), unfolding(crate::specs::Job::argument_at))]
    pub fn argument<const COUNT: usize>(self, size: usize, within: usize) -> u64
        requires { (COUNT ≤ word_bytes) × (within ≤ word_bytes) }
        ensures { result ≡ argument_at self.entry.job.now self.entry.at size within COUNT }
    {
        if within < size {
            self.number::<COUNT>(within)
        } else {
            0
        }
    }

    #[tactic(auto, using(std::proofs::lemmas::Bool::Decides::nat_tests), unfolding(crate::specs::Fields::good_value))]
    fn has_good_value(self) -> bool
        ensures { result ≡ good_value self.entry.job.now self.entry.at }
    {
        match self.tag() {
            TAG_TILES => (1..=MOST_TILES).contains(&self.number::<TILE_COUNT_BYTES>(0)),
            TAG_LINE => self.number::<LINE_ADDRESS_BYTES>(0) % LINE_BYTES == 0,
            _ => true,
        }
    }

    // The first test that fails gives the refusal.
    #[tactic(auto, using(std::proofs::lemmas::Bool::Decides::nat_tests), unfolding(crate::specs::Fields::field_refusal, crate::specs::Fields::first_failed))]
    pub fn check(self, before: usize) -> Result<(), Refusal>
        requires { before < 2 ^ 63 }
        ensures { told_field result ≡ field_refusal self.entry.job.now self.entry.at before }
    {
        let tag = self.tag();
        let said = self.said_length();
        if self.at + HEAD_BYTES > self.job.len() {
            return Err(Refusal::JobCut);
        }
        if !is_tag(tag) {
            return Err(Refusal::JobTag);
        }
        if said != value_length(tag) {
            return Err(Refusal::JobLength);
        }
        if self.next() > self.job.len() {
            return Err(Refusal::JobCut);
        }
        if !tag_in_place(before, tag) {
            return Err(Refusal::JobPlace);
        }
        if !self.has_good_value() {
            return Err(Refusal::JobValue);
        }
        Ok(())
    }
}
