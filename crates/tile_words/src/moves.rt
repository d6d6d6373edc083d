// A move of a tile made in place, on the words of its block.
ghost use Rattle.std.specs.Prelude.{◌≡◌};
ghost use Rattle.tile_rules.specs.Steps.{after_move, loaded_value};
ghost use Rattle.tile_words.specs.InPlace.{tile_in};

use crate::{Tile, changes, fields};
use tile_rules::TileMove;

pub fn make_move(tile: &mut Tile, made: TileMove)
    ensures { tile_in tile.new ≡ after_move made (tile_in tile.old) }
{
    match made {
        TileMove::Read(_) => {}
        TileMove::Request {
            message,
            waits,
            word,
            value,
        } => changes::make_request(tile, message, waits, word, value),
        TileMove::Store { word, value } => changes::store_word(tile, word, value),
        TileMove::Drop => changes::drop_line(tile),
        TileMove::WriteBack => changes::write_back(tile),
        TileMove::Reply {
            state,
            message,
            reported,
            with_line,
        } => changes::answer_forward(tile, state, message, reported, with_line),
        TileMove::FillLoad { state, .. } => changes::fill_load(tile, state),
        TileMove::FillStore { word, value } => changes::fill_store(tile, word, value),
    }
}

// The word that a move loads, once it is made.
pub fn loaded_value(tile: &Tile, made: TileMove) -> u64
    ensures { result ≡ loaded_value made (tile_in tile.now) }
{
    match made {
        TileMove::Read(word) | TileMove::FillLoad { word, .. } => fields::read_word(tile, word),
        _ => 0,
    }
}
