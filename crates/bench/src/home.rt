// The calls at the home: taking, delivery from a tile, memory step, memory ack, home eviction.
ghost use Rattle.std.specs.Prelude.{◌≡◌, ◌<◌, get_or};
ghost use Rattle.numbers.specs.Limits.{most_tiles};
ghost use Rattle.layout.specs.Places.{home_last_taken_place};
ghost use Rattle.protocol.specs.Parts.{taking, from_tile, memory_step, memory_ack, home_eviction};
ghost use Rattle.protocol.specs.Calls.{home_calls, call_from};
ghost use Rattle.calls.specs.Answers.{told};
ghost use Rattle.calls.specs.Calls.{answer_to, after_call};
ghost use Rattle.arbiter.specs.Decisions.{decision_of};
ghost use Rattle.bench.specs.Serves.{Serves};
ghost use Rattle.home_words.specs.Forwards.{HoldTiles};

use calls::Answer;
use layout::places::HOME_TILE_COUNT;
use numbers::refusals::Refusal;
use numbers::tags::{
    TAG_FROM_TILE, TAG_HOME_EVICTION, TAG_MEMORY_ACK, TAG_MEMORY_STEP, TAG_TAKING,
};

fn serve(words: &mut [u64], count: u64, tag: u64, tile: u64) -> Answer
    requires { HoldTiles words.old count × (get_or words.old home_last_taken_place 0 < most_tiles) }
    ensures { Serves words.old count (decision_of words.old count tag tile) (told result) words.new }
{
    let decision = arbiter::decision_of(words, count, tag, tile)?;
    home_words::commit(words, count, decision)
}

// The call at the home by its tag: taking, delivery from the tile, memory step, memory ack, else home eviction.
pub fn at_home(words: &mut [u64], tag: u64, tile: u64) -> Answer
    ensures answer { told result ≡ answer_to (call_from home_calls tag tile 0 0) words.old }
    ensures after { words.new ≡ after_call (call_from home_calls tag tile 0 0) words.old }
{
    if !well_formed::well_formed(words) {
        return Err(Refusal::Malformed);
    }
    let count = words[HOME_TILE_COUNT];
    if tag == TAG_MEMORY_STEP {
        home_words::memory_step(words, count)
    } else {
        serve(words, count, tag, tile)
    }
}

// The next tile in 01's circle whose NoC1 front is a request, or a guard with its mark set.
pub fn taking(words: &mut [u64]) -> Answer
    ensures answer { told result ≡ answer_to taking words.old }
    ensures after { words.new ≡ after_call taking words.old }
{
    at_home(words, TAG_TAKING, 0)
}

// Delivery from a tile, of the front message of its NoC3 queue.
pub fn from_tile(words: &mut [u64], tile: u64) -> Answer
    ensures answer { told result ≡ answer_to (from_tile tile) words.old }
    ensures after { words.new ≡ after_call (from_tile tile) words.old }
{
    at_home(words, TAG_FROM_TILE, tile)
}

pub fn memory_step(words: &mut [u64]) -> Answer
    ensures answer { told result ≡ answer_to memory_step words.old }
    ensures after { words.new ≡ after_call memory_step words.old }
{
    at_home(words, TAG_MEMORY_STEP, 0)
}

pub fn memory_ack(words: &mut [u64]) -> Answer
    ensures answer { told result ≡ answer_to memory_ack words.old }
    ensures after { words.new ≡ after_call memory_ack words.old }
{
    at_home(words, TAG_MEMORY_ACK, 0)
}

pub fn home_eviction(words: &mut [u64]) -> Answer
    ensures answer { told result ≡ answer_to home_eviction words.old }
    ensures after { words.new ≡ after_call home_eviction words.old }
{
    at_home(words, TAG_HOME_EVICTION, 0)
}
