// A message put on NoC2 of every tile of a mask, where there is room at each. A tile of the mask that is none of the bench is passed over.
ghost use Rattle.std.specs.Prelude.{◌≡◌, true, ◌+◌, ◌<◌, length};
ghost use Rattle.numbers.specs.Limits.{words_in_line};
ghost use Rattle.lists.specs.Over.{over};
ghost use Rattle.layout.specs.Places.{home_size};
ghost use Rattle.layout.specs.Blocks.{tile_place, tile_block_at, tile_block_words};
ghost use Rattle.layout.specs.Queues.{has_room};
ghost use Rattle.home_words.specs.Forwards.{has_rooms, forward_put, forward_put_all, HoldTiles};

use layout::Row;
use layout::places::{self, TILE_NOC2};
use masks::Tiles;

fn has_room_for(words: &[u64], tile: u64) -> bool
    requires { HoldTiles words.now (tile + 1) }
    ensures { result ≡ has_room (tile_block_at words.now (tile_place tile)).noc2 }
{
    layout::has_room_at(words, places::tile_at(tile) + TILE_NOC2)
}

// Is there room on NoC2 of every tile of the mask?
pub fn has_rooms(words: &[u64], count: u64, to: u64) -> bool
    requires { HoldTiles words.now count }
    ensures { result ≡ has_rooms true words.now home_size 0 to count }
{
    Tiles::of(to).all(|tile| tile >= count || has_room_for(words, tile))
}

fn send_one(words: &mut [u64], tile: u64, message: Row)
    requires { HoldTiles words.old (tile + 1) }
    ensures { words.new ≡ over words.old (tile_place tile) (tile_block_words (forward_put message (tile_block_at words.old (tile_place tile)))) }
{
    layout::push_at(words, places::tile_at(tile) + TILE_NOC2, message);
}

// Puts the message on NoC2 of every tile of the mask.
pub fn send_all(words: &mut [u64], count: u64, to: u64, message: Row)
    requires { HoldTiles words.old count }
    ensures words_after { words.new ≡ forward_put_all words.old home_size 0 to message count }
    ensures full { length message.words ≡ words_in_line }
{
    for tile in Tiles::of(to) {
        if tile < count {
            send_one(words, tile, message);
        }
    }
}
