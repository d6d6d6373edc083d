// The numbers of a tile's block in its words: read, and written; and its line's words written.
ghost use Rattle.std.specs.Prelude.{◌≡◌, get_or};
ghost use Rattle.tile_rules.specs.Steps.{numbers_in, with_numbers, with_state, with_line, with_word};
ghost use Rattle.tile_words.specs.InPlace.{tile_in};

use crate::Tile;
use layout::places::{
    MESSAGE_STATE, SECOND, TILE_LINE, TILE_NOC1, TILE_NOC2, TILE_NOC3, TILE_STATE, TILE_VALUE,
    TILE_WAITING, TILE_WORD,
};
use numbers::limits::{LINE_LENGTH, LINE_WORDS};
use tile_rules::TileNumbers;

pub fn read_numbers(tile: &Tile) -> TileNumbers
    ensures { result ≡ numbers_in (tile_in tile.now) }
{
    TileNumbers {
        state: tile[TILE_STATE],
        waits: tile[TILE_WAITING],
        word: tile[TILE_WORD],
        value: tile[TILE_VALUE],
        noc1: tile[TILE_NOC1 + SECOND],
        message: tile[TILE_NOC2],
        granted: tile[TILE_NOC2 + MESSAGE_STATE],
        noc3: tile[TILE_NOC3 + SECOND],
    }
}

pub fn write_state(tile: &mut Tile, state: u64)
    ensures { tile_in tile.new ≡ with_state state (tile_in tile.old) }
{
    tile[TILE_STATE] = state;
}

pub fn write_numbers(tile: &mut Tile, state: u64, waits: u64, word: u64, value: u64)
    ensures { tile_in tile.new ≡ with_numbers state waits word value (tile_in tile.old) }
{
    layout::write_four(tile, TILE_STATE, state, waits, word, value);
}

pub fn read_line(tile: &Tile) -> [u64; LINE_LENGTH]
    ensures { result ≡ (tile_in tile.now).head.words }
{
    layout::read_eight(tile, TILE_LINE)
}

pub fn write_line(tile: &mut Tile, line: [u64; LINE_LENGTH])
    ensures { tile_in tile.new ≡ with_line line (tile_in tile.old) }
{
    layout::write_eight(tile, TILE_LINE, line);
}

// One word of the line; there is none from word 8 on.
pub fn read_word(tile: &Tile, word: u64) -> u64
    ensures { result ≡ get_or (tile_in tile.now).head.words word 0 }
{
    if word < LINE_WORDS {
        tile[TILE_LINE + word as usize]
    } else {
        0
    }
}

pub fn write_word(tile: &mut Tile, word: u64, value: u64)
    ensures { tile_in tile.new ≡ with_word word value (tile_in tile.old) }
{
    if word < LINE_WORDS {
        tile[TILE_LINE + word as usize] = value;
    }
}
