// The calls at one tile: load, store, evict, and delivery to it.
ghost use Rattle.std.specs.Prelude.{◌≡◌};
ghost use Rattle.protocol.specs.Parts.{load, store, evict, to_tile};
ghost use Rattle.protocol.specs.Calls.{tile_calls, call_from};
ghost use Rattle.calls.specs.Answers.{told};
ghost use Rattle.calls.specs.Calls.{answer_to, after_call};

use calls::{Accepted, Answer};
use layout::places::{self, HOME_TILE_COUNT};
use numbers::refusals::Refusal;
use numbers::tags::{TAG_EVICT, TAG_LOAD, TAG_STORE, TAG_TO_TILE};
use tile_words::StepAnswer;

// The call at a tile by its tag: load, store, evict, else delivery to the tile.
pub fn at_tile(words: &mut [u64], tag: u64, tile: u64, word: u64, value: u64) -> Answer
    ensures answer { told result ≡ answer_to (call_from tile_calls tag tile word value) words.old }
    ensures after { words.new ≡ after_call (call_from tile_calls tag tile word value) words.old }
{
    if !well_formed::well_formed(words) {
        return Err(Refusal::Malformed);
    }
    if tile >= words[HOME_TILE_COUNT] {
        return Err(Refusal::NoTile);
    }
    let StepAnswer { kind, value, sent } = tile_words::step_at(
        words,
        places::tile_at(tile),
        tag,
        word,
        value,
    )?;
    Ok(Accepted::at_tile(tile, kind, value, sent))
}

pub fn load(words: &mut [u64], tile: u64, word: u64) -> Answer
    ensures answer { told result ≡ answer_to (load tile word) words.old }
    ensures after { words.new ≡ after_call (load tile word) words.old }
{
    at_tile(words, TAG_LOAD, tile, word, 0)
}

pub fn store(words: &mut [u64], tile: u64, word: u64, value: u64) -> Answer
    ensures answer { told result ≡ answer_to (store tile word value) words.old }
    ensures after { words.new ≡ after_call (store tile word value) words.old }
{
    at_tile(words, TAG_STORE, tile, word, value)
}

pub fn evict(words: &mut [u64], tile: u64) -> Answer
    ensures answer { told result ≡ answer_to (evict tile) words.old }
    ensures after { words.new ≡ after_call (evict tile) words.old }
{
    at_tile(words, TAG_EVICT, tile, 0, 0)
}

// Delivery to a tile, of the front message of its NoC2 queue.
pub fn to_tile(words: &mut [u64], tile: u64) -> Answer
    ensures answer { told result ≡ answer_to (to_tile tile) words.old }
    ensures after { words.new ≡ after_call (to_tile tile) words.old }
{
    at_tile(words, TAG_TO_TILE, tile, 0, 0)
}
