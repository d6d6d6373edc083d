// The tiles of a mask one by one: specs/Tiles.
ghost use Rattle.std.specs.Prelude.{◌≡◌};
ghost use Rattle.std.specs.Iterator.{YieldsFirst, item_count};
ghost use Rattle.masks.specs.Tiles.{tiles_from};

use bits::WORD_BITS;
use std::marker::Model;

// The tiles of a mask in rising order, seen as the list of those that are left.
#[derive(Drop)]
pub struct Tiles {
    mask: u64,
    // the first tile that may be left
    from: u64,
}

impl Model for Tiles {
    ghost use Rattle.std.specs.Prelude.{ℕ, List};
    ghost use Rattle.masks.specs.Tiles.{tiles_from};

    ghost Value = { List ℕ };

    ghost view = { λ it. tiles_from it.mask it.from };
}

impl Iterator for Tiles {
    type Item = u64;

    ghost next_gives = { YieldsFirst (λ rest. rest) };

    ghost remaining = { item_count (λ rest. rest) };

    fn next(&mut self) -> Option<u64> {
        let tile = crate::next(self.mask, self.from);
        if tile >= WORD_BITS {
            return None;
        }
        self.from = tile + 1;
        Some(tile)
    }
}

impl Tiles {
    pub fn of(mask: u64) -> Tiles
        ensures { result ≡ tiles_from mask 0 }
    {
        Tiles { mask, from: 0 }
    }
}
