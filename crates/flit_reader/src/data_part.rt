// The data of the front message of lent flits, and of the message at a place of them: those same words of the caller's flits, or none.
ghost use Rattle.std.specs.Prelude.{◌≡◌, drop};
ghost use Rattle.flit_rules.specs.Reading.{data_of};

use crate::reading::{read, tail};

#[tactic(auto, using(flit_rules::proofs::ReadLaws::start_le_used, flit_rules::proofs::ReadLaws::used_le))]
pub fn data_words(flits: &[u64]) -> &[u64]
    ensures { result.now ≡ data_of flits.now }
{
    match read(flits) {
        Ok(front) => &flits[front.start..front.used],
        Err(_) => &[],
    }
}

// Of the flits from a place on.
pub fn data_words_at(flits: &[u64], at: usize) -> &[u64]
    ensures { result.now ≡ data_of (drop at flits.now) }
{
    data_words(tail(flits, at))
}
