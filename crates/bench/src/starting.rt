// A fresh bench written into lent words.
ghost use Rattle.std.specs.Prelude.{◌≡◌};
ghost use Rattle.protocol.specs.Answers.{answer_of};
ghost use Rattle.calls.specs.Answers.{told};
ghost use Rattle.calls.specs.Calls.{start_on, words_started};

use calls::{Accepted, Answer};
use layout::places::{
    HOME_CONTROL_ROW, HOME_PHASE, HOME_TILE_COUNT, HOME_TO_MEMORY, HOME_WORDS, TILE_WORDS,
};
use numbers::kinds::Kind;
use numbers::limits::{LINE_LENGTH, MOST_TILES};
use numbers::queues::Queues;
use numbers::refusals::Refusal;

// A fresh bench of this many tiles, with the memory's words. All is 0 but the tile count, the last taken (the last tile, so that 01's
// circle begins with tile 0) and the memory's words.
pub fn start(words: &mut [u64], count: u64, memory: [u64; LINE_LENGTH]) -> Answer
    ensures answer { told result ≡ answer_of (start_on words.old count memory) }
    ensures after { words.new ≡ words_started words.old count (start_on words.old count memory) }
{
    // two tests: with `!(1..=MOST_TILES).contains(&count)` the search gave up at the refusal
    if count == 0 || count > MOST_TILES {
        return Err(Refusal::NoTile);
    }
    let enough = HOME_WORDS + TILE_WORDS * (count as usize);
    if words.len() < enough {
        return Err(Refusal::Malformed);
    }
    words[HOME_TILE_COUNT] = count;
    words[HOME_PHASE..HOME_CONTROL_ROW].fill(0);
    let control = layout::row_of(count - 1, 0, 0, 0, memory);
    layout::write_row(words, HOME_CONTROL_ROW, control);
    words[HOME_TO_MEMORY..enough].fill(0);
    Ok(Accepted {
        kind: Kind::Other,
        value: 0,
        sent: Queues::Nothing,
        tiles: 0,
    })
}
