// Load, store and evict at a tile, decided on its numbers. Whether the tile waits is asked in each state apart: where a hit and a miss meet
// before they are told from a refusal, the compiler joins them and tells them apart again.
ghost use Rattle.std.specs.Prelude.{◌≡◌};
ghost use Rattle.tile_rules.specs.Moves.{unless_waiting, load, store, evict};

use crate::moves::{TileMove, TileNumbers};
use layout::codes::{WAITS_FOR_LOAD, WAITS_FOR_NOTHING, WAITS_FOR_STORE};
use numbers::limits::LINE_WORDS;
use numbers::refusals::Refusal;
use numbers::states::{STATE_E, STATE_I, STATE_M};
use numbers::types::{LOAD_REQ, STORE_REQ};

fn unless_waiting(tile: TileNumbers, made: TileMove) -> Result<TileMove, Refusal>
    ensures { result ≡ unless_waiting tile made }
{
    if tile.waits == WAITS_FOR_NOTHING {
        Ok(made)
    } else {
        Err(Refusal::TileWaits)
    }
}

pub fn load(tile: TileNumbers, word: u64) -> Result<TileMove, Refusal>
    ensures { result ≡ load tile word }
{
    if word >= LINE_WORDS {
        return Err(Refusal::NoWord);
    }
    if tile.state == STATE_I {
        let request = TileMove::Request {
            message: LOAD_REQ,
            waits: WAITS_FOR_LOAD,
            word,
            value: 0,
        };
        unless_waiting(tile, request)
    } else {
        unless_waiting(tile, TileMove::Read(word))
    }
}

// Only in E and M the tile writes at once.
pub fn store(tile: TileNumbers, word: u64, value: u64) -> Result<TileMove, Refusal>
    ensures { result ≡ store tile word value }
{
    if word >= LINE_WORDS {
        return Err(Refusal::NoWord);
    }
    if tile.state < STATE_E {
        let request = TileMove::Request {
            message: STORE_REQ,
            waits: WAITS_FOR_STORE,
            word,
            value,
        };
        unless_waiting(tile, request)
    } else {
        unless_waiting(tile, TileMove::Store { word, value })
    }
}

pub fn evict(tile: TileNumbers) -> Result<TileMove, Refusal>
    ensures { result ≡ evict tile }
{
    match tile.state {
        STATE_I => Err(Refusal::NoLine),
        STATE_M => Ok(TileMove::WriteBack),
        _ => Ok(TileMove::Drop),
    }
}
