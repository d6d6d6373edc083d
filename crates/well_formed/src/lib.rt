// Are lent words a bench? Each block is tested where it stands to be the encoding of what it is read as, with no block read; numbers that
// have to be 0 are or-ed together, and of each message only what its type leaves open is looked at.
// - fields, phases (specs/Fields): single numbers, and those that a type or a phase asks for
// - rows (specs/Rows), messages, queues: a row, a message, a queue; tile_block, home_block (specs/Blocks): a block
// A queue and the home are tested by words and a place, as layout has them: an array would be cut out at each call.
// The specs here are devices of the proofs: the promise is well_formed of crate calls.
#![tactic(auto)]

ghost use Rattle.std.specs.Prelude.{◌≡◌, true, ◌≤◌, length};
ghost use Rattle.numbers.specs.Limits.{most_tiles};
ghost use Rattle.layout.specs.Places.{home_size};
ghost use Rattle.layout.specs.Blocks.{bench_words};
ghost use Rattle.calls.specs.Calls.{tiles_ok, well_formed};

use layout::places::{HOME_TILE_COUNT, HOME_WORDS, TILE_WORDS, tile_at};
use numbers::limits::MOST_TILES;

mod fields;
mod home_block;
mod messages;
mod phases;
mod queues;
mod rows;
mod tile_block;

fn tiles_ok(words: &[u64], count: u64) -> bool
    requires { (bench_words count ≤ length words.now) × (count ≤ most_tiles) }
    ensures { result ≡ tiles_ok true words.now home_size count }
{
    (0..count).all(|tile| tile_block::tile_ok_at(words, tile_at(tile)))
}

// Do the words begin with a bench?
#[tactic(auto, unfolding(calls::specs::Calls::well_formed, layout::specs::Blocks::home_block_at, layout::specs::Blocks::row_at))]
pub fn well_formed(words: &[u64]) -> bool
    ensures { result ≡ well_formed words.now }
{
    if words.len() < HOME_WORDS {
        return false;
    }
    let count = words[HOME_TILE_COUNT];
    if count == 0 || count > MOST_TILES {
        return false;
    }
    HOME_WORDS + TILE_WORDS * (count as usize) <= words.len()
        && home_block::home_ok_at(words)
        && tiles_ok(words, count)
}
