// A tile's rules on numbers: which move each of its four calls is, before a word is written.
// - moves (specs/Moves): the numbers by which a tile decides, and its moves
// - accesses: load, store, evict; deliveries: what stands at the front of its NoC2
// - specs/Steps: what a move makes of the tile's block; proofs/Rules: that this is document 01's rule
#![tactic(auto)]

ghost use Rattle.std.specs.Prelude.{◌≡◌};
ghost use Rattle.tile_rules.specs.Moves.{step};

use numbers::refusals::Refusal;
use numbers::tags::{TAG_EVICT, TAG_LOAD, TAG_STORE};

mod accesses;
mod deliveries;
mod moves;

pub use moves::{TileMove, TileNumbers};

// One of the four by tag: load, store, evict, else delivery to the tile. The tag is no enum:
// `bench::at_tile` takes any number, and every other is a delivery.
pub fn step(tile: TileNumbers, tag: u64, word: u64, value: u64) -> Result<TileMove, Refusal>
    ensures { result ≡ step tile tag word value }
{
    match tag {
        TAG_LOAD => accesses::load(tile, word),
        TAG_STORE => accesses::store(tile, word, value),
        TAG_EVICT => accesses::evict(tile),
        _ => deliveries::deliver(tile),
    }
}
