// The calls at a tile, by their numbers.
ghost use Rattle.std.specs.Prelude.{◌≡◌};
ghost use Rattle.protocol.specs.Parts.{load, store, evict, to_tile};
ghost use Rattle.protocol.specs.Calls.{tile_calls, has_tag};
ghost use Rattle.calls.specs.Numbered.{call_at_tile};

use numbers::tags::{TAG_EVICT, TAG_LOAD, TAG_STORE, TAG_TO_TILE};

// A tag and no enum: exports hands its parts to `bench::at_tile`, which takes a tag, so an enum would be taken apart into these four again.
// The tag (load, store, evict, else delivery to the tile), the tile, and of word and value what the call has.
#[derive(Clone, Copy)]
pub struct TileCall {
    pub tag: u64,
    pub tile: u64,
    pub word: u64,
    pub value: u64,
}

pub fn load(tile: u64, word: u64) -> TileCall
    ensures { call_at_tile result ≡ load tile word }
{
    TileCall {
        tag: TAG_LOAD,
        tile,
        word,
        value: 0,
    }
}

pub fn store(tile: u64, word: u64, value: u64) -> TileCall
    ensures { call_at_tile result ≡ store tile word value }
{
    TileCall {
        tag: TAG_STORE,
        tile,
        word,
        value,
    }
}

pub fn evict(tile: u64) -> TileCall
    ensures { call_at_tile result ≡ evict tile }
{
    TileCall {
        tag: TAG_EVICT,
        tile,
        word: 0,
        value: 0,
    }
}

pub fn to_tile(tile: u64) -> TileCall
    ensures { call_at_tile result ≡ to_tile tile }
{
    TileCall {
        tag: TAG_TO_TILE,
        tile,
        word: 0,
        value: 0,
    }
}

// Is the call of this tag one at a tile?
pub fn is_tile_call(tag: u64) -> bool
    ensures { result ≡ has_tag tile_calls tag }
{
    matches!(tag, TAG_LOAD | TAG_STORE | TAG_EVICT | TAG_TO_TILE)
}
