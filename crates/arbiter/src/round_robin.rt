// Round robin among the tiles of a bench: those whose NoC1 front may be taken, and the next of them in 01's circle.
ghost use Rattle.std.specs.Prelude.{◌≡◌, ◌+◌, ◌<◌};
ghost use Rattle.numbers.specs.Limits.{most_tiles};
ghost use Rattle.arbiter.specs.RoundRobin.{can_take, ready_from, chosen};
ghost use Rattle.home_words.specs.Forwards.{HoldTiles};

use layout::places::{self, TILE_NOC1};
use numbers::limits::MOST_TILES;
use numbers::types::{NO_MESSAGE, WBGUARD_REQ};

// A guard may be taken once its write-back has come, which the tile's mark says.
#[tactic(auto, unfolding(crate::specs::RoundRobin::can_take, crate::specs::RoundRobin::may_take))]
fn can_take(words: &[u64], marks: u64, tile: u64) -> bool
    requires { HoldTiles words.now (tile + 1) }
    ensures { result ≡ can_take words.now marks tile }
{
    match words[places::tile_at(tile) + TILE_NOC1] {
        NO_MESSAGE => false,
        WBGUARD_REQ => masks::has(marks, tile),
        _ => true,
    }
}

// The mask of the tiles that may be taken.
pub fn ready_tiles(words: &[u64], count: u64, marks: u64) -> u64
    requires { HoldTiles words.now count }
    ensures { result ≡ ready_from 0 words.now marks 0 count }
{
    let mut ready = 0;
    for tile in 0..count {
        if can_take(words, marks, tile) {
            ready = masks::add(ready, tile);
        }
    }
    ready
}

// The first of the mask beyond the last taken, else the first of all; 64 for none. No Option: the definition `chosen` answers 64, as
// `masks::next` does.
#[tactic(auto, unfolding(crate::specs::RoundRobin::chosen))]
pub fn choose(ready: u64, last: u64) -> u64
    requires { last < most_tiles }
    ensures { result ≡ chosen ready last }
{
    let beyond = masks::next(ready, last + 1);
    if beyond < MOST_TILES {
        beyond
    } else {
        masks::next(ready, 0)
    }
}
