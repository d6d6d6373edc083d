// What a tile sends goes onto its own NoC1 and NoC3; what is delivered to it comes off its NoC2.
ghost use Rattle.std.specs.Prelude.{◌≡◌};
ghost use Rattle.tile_rules.specs.Steps.{request_sent, reply_sent, line_sent, without_forward};
ghost use Rattle.tile_words.specs.InPlace.{tile_in};

use crate::{Tile, fields};
use layout::places::{ROW_DATA, TILE_NOC1, TILE_NOC2, TILE_NOC3};
use numbers::limits::LINE_LENGTH;

// On NoC1.
pub fn send_request(tile: &mut Tile, message: u64, word: u64)
    ensures { tile_in tile.new ≡ request_sent message word (tile_in tile.old) }
{
    layout::push_numbers_at(tile, TILE_NOC1, message, word, 0, 0);
}

// On NoC3, without data.
pub fn send_reply(tile: &mut Tile, message: u64, reported: u64)
    ensures { tile_in tile.new ≡ reply_sent message reported (tile_in tile.old) }
{
    layout::push_numbers_at(tile, TILE_NOC3, message, 0, reported, 0);
}

// On NoC3, with the line's words.
pub fn send_line(tile: &mut Tile, message: u64, reported: u64, flag: u64)
    ensures { tile_in tile.new ≡ line_sent message reported flag (tile_in tile.old) }
{
    let line = fields::read_line(tile);
    layout::push_at(
        tile,
        TILE_NOC3,
        layout::row_of(message, 0, reported, flag, line),
    );
}

// The words of the front message.
pub fn read_front(tile: &Tile) -> [u64; LINE_LENGTH]
    ensures { result ≡ (tile_in tile.now).noc2.a.words }
{
    layout::read_eight(tile, TILE_NOC2 + ROW_DATA)
}

pub fn take_front(tile: &mut Tile)
    ensures { tile_in tile.new ≡ without_forward (tile_in tile.old) }
{
    layout::pop_at(tile, TILE_NOC2);
}
