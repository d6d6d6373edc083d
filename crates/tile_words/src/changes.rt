// What a tile's move changes, in place on the words of its block: a request made, a word stored, the line dropped or written back, a
// forward answered, the line filled. Only what changes is written; what a tile sends goes onto its own queues.
ghost use Rattle.std.specs.Prelude.{◌≡◌};
ghost use Rattle.tile_rules.specs.Steps.{request_made, word_stored, line_dropped, line_written_back, reply_put, state_after_reply, forward_answered, line_filled, load_filled, store_filled};
ghost use Rattle.tile_words.specs.InPlace.{tile_in};

use crate::{Tile, fields, queues};
use layout::codes::WAITS_FOR_NOTHING;
use layout::places::TILE_STATE;
use numbers::limits::LINE_LENGTH;
use numbers::states::{STATE_I, STATE_M};
use numbers::types::{WB_REQ, WBGUARD_REQ};

pub fn make_request(tile: &mut Tile, message: u64, waits: u64, word: u64, value: u64)
    ensures { tile_in tile.new ≡ request_made message waits word value (tile_in tile.old) }
{
    let state = tile[TILE_STATE];
    fields::write_numbers(tile, state, waits, word, value);
    queues::send_request(tile, message, word);
}

pub fn store_word(tile: &mut Tile, word: u64, value: u64)
    ensures { tile_in tile.new ≡ word_stored word value (tile_in tile.old) }
{
    fields::write_state(tile, STATE_M);
    fields::write_word(tile, word, value);
}

pub fn drop_line(tile: &mut Tile)
    ensures { tile_in tile.new ≡ line_dropped (tile_in tile.old) }
{
    fields::write_state(tile, STATE_I);
    fields::write_line(tile, [0; LINE_LENGTH]);
}

// WB_REQ with the line's words, then its guard.
pub fn write_back(tile: &mut Tile)
    ensures { tile_in tile.new ≡ line_written_back (tile_in tile.old) }
{
    queues::send_line(tile, WB_REQ, 0, 0);
    queues::send_request(tile, WBGUARD_REQ, 0);
    drop_line(tile);
}

// An ack, with the line's words or without.
fn put_reply(tile: &mut Tile, message: u64, reported: u64, with_line: bool)
    ensures { tile_in tile.new ≡ reply_put message reported with_line (tile_in tile.old) }
{
    if with_line {
        queues::send_line(tile, message, reported, 1);
    } else {
        queues::send_reply(tile, message, reported);
    }
}

// The state after a reply; in I the line is gone.
fn set_state_after_reply(tile: &mut Tile, state: u64)
    ensures { tile_in tile.new ≡ state_after_reply state (tile_in tile.old) }
{
    if state == STATE_I {
        drop_line(tile);
    } else {
        fields::write_state(tile, state);
    }
}

pub fn answer_forward(tile: &mut Tile, state: u64, message: u64, reported: u64, with_line: bool)
    ensures { tile_in tile.new ≡ forward_answered state message reported with_line (tile_in tile.old) }
{
    put_reply(tile, message, reported, with_line);
    set_state_after_reply(tile, state);
    queues::take_front(tile);
}

// The words of the front message of NoC2, in the state; nothing waits any more.
fn fill_line(tile: &mut Tile, state: u64)
    ensures { tile_in tile.new ≡ line_filled state (tile_in tile.old) }
{
    let line = queues::read_front(tile);
    fields::write_numbers(tile, state, WAITS_FOR_NOTHING, 0, 0);
    fields::write_line(tile, line);
}

pub fn fill_load(tile: &mut Tile, state: u64)
    ensures { tile_in tile.new ≡ load_filled state (tile_in tile.old) }
{
    fill_line(tile, state);
    queues::take_front(tile);
}

pub fn fill_store(tile: &mut Tile, word: u64, value: u64)
    ensures { tile_in tile.new ≡ store_filled word value (tile_in tile.old) }
{
    fill_line(tile, STATE_M);
    fields::write_word(tile, word, value);
    queues::take_front(tile);
}
