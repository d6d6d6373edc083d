// Sets of tiles as bit masks in a word of 64 bits: specs/Mask; specs/Next for the first tile of a mask, specs/Tiles for all in order.
// Every call has an answer for every input: a tile that a word cannot hold is not in it, and neither put in nor taken out.
#![tactic(auto)]

ghost use Rattle.std.specs.Prelude.{◌≡◌};
ghost use Rattle.masks.specs.Mask.{has, add64, del};
ghost use Rattle.masks.specs.Next.{next};

mod tiles;

use bits::WORD_BITS;
pub use tiles::Tiles;

// Is the tile in the mask?
#[tactic(auto, unfolding(crate::specs::Mask::has))]
pub fn has(mask: u64, tile: u64) -> bool
    ensures { result ≡ has mask tile }
{
    bits::cut(mask, tile, 1) == 1
}

// The mask with the tile.
#[tactic(auto, using(crate::proofs::MaskLaws::add_word, crate::proofs::MaskLaws::add_none))]
pub fn add(mask: u64, tile: u64) -> u64
    ensures { result ≡ add64 mask tile }
{
    if tile < WORD_BITS {
        mask | (1 << tile)
    } else {
        mask
    }
}

// The mask without the tile.
#[tactic(auto, using(crate::proofs::MaskLaws::del_word, crate::proofs::MaskLaws::del_none))]
pub fn del(mask: u64, tile: u64) -> u64
    ensures { result ≡ del mask tile }
{
    if tile < WORD_BITS {
        mask - (mask & (1 << tile))
    } else {
        mask
    }
}

// The first tile in the mask from a given tile on, as a priority encoder finds it; 64 for none. No Option: docs/PROVED.md names this
// promise, and the definition `next` answers 64. For the tiles one by one: Tiles.
pub fn next(mask: u64, from: u64) -> u64
    ensures { result ≡ next mask from }
{
    let up = bits::shr(mask, from);
    if up == 0 {
        WORD_BITS
    } else {
        from + u64::from(up.trailing_zeros())
    }
}
