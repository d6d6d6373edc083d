// Is a tile's block the encoding of what it is read as?
ghost use Rattle.std.specs.Prelude.{◌≡◌, ◌&&◌, ◌+◌, ◌*◌, ◌≤◌, length};
ghost use Rattle.layout.specs.Places.{queue_size, tile_size};
ghost use Rattle.layout.specs.Blocks.{row_at, tile_block_at};
ghost use Rattle.layout.specs.Encode.{enc_head};
ghost use Rattle.layout.specs.Decode.{dec_cache, dec_waiting};
ghost use Rattle.layout.specs.Canonical.{same_row, tile_ok};
ghost use Rattle.well_formed.specs.Rows.{none_at};
ghost use Rattle.well_formed.specs.Blocks.{second_queue, third_queue, queues_ok, cache_ok};

use crate::messages::{Forward, Reply, Request};
use crate::queues::queue_ok;
use crate::{fields, rows};
use layout::places::{
    QUEUE_WORDS, ROW_WORDS, TILE_NOC1, TILE_STATE, TILE_VALUE, TILE_WAITING, TILE_WORD,
};
use numbers::states::STATE_I;

// A tile's queues stand one behind the other.
const SECOND_QUEUE: usize = QUEUE_WORDS;

const THIRD_QUEUE: usize = 2 * QUEUE_WORDS;

// A tile's state and line.
fn cache_ok(head: &[u64; ROW_WORDS]) -> bool
    ensures { result ≡ cache_ok (row_at head.now 0) }
{
    match head[TILE_STATE] {
        STATE_I => rows::clear_data(head),
        state => fields::state_ok(state),
    }
}

// These, and what the tile waits for.
fn head_ok(head: &[u64; ROW_WORDS]) -> bool
    ensures { result ≡ same_row (enc_head (dec_cache (row_at head.now 0)) (dec_waiting (row_at head.now 0))) (row_at head.now 0) }
{
    cache_ok(head)
        & fields::waiting_numbers_ok(head[TILE_WAITING], head[TILE_WORD], head[TILE_VALUE])
}

#[tactic(auto, using(crate::proofs::NumberLaws::or_clear))]
fn all_empty(words: &[u64], at: usize) -> bool
    requires { at + 3 * queue_size ≤ length words.now }
    ensures { result ≡ (none_at words.now at && (none_at words.now (at + second_queue) && none_at words.now (at + third_queue))) }
{
    (rows::or_queue(words, at)
        | rows::or_queue(words, at + SECOND_QUEUE)
        | rows::or_queue(words, at + THIRD_QUEUE))
        == 0
}

// The queues of a tile; mostly all three are empty.
#[tactic(auto, using(crate::proofs::BlockLaws::queues_none), unfolding(crate::specs::Blocks::queues_ok))]
fn queues_ok(words: &[u64], at: usize) -> bool
    requires { at + 3 * queue_size ≤ length words.now }
    ensures { result ≡ queues_ok words.now at }
{
    if (words[at] | words[at + SECOND_QUEUE] | words[at + THIRD_QUEUE]) == 0 {
        all_empty(words, at)
    } else {
        queue_ok::<Request>(words, at)
            & (queue_ok::<Forward>(words, at + SECOND_QUEUE)
                & queue_ok::<Reply>(words, at + THIRD_QUEUE))
    }
}

#[tactic(auto, unfolding(layout::specs::Canonical::tile_ok, layout::specs::Blocks::tile_block_at, crate::specs::Blocks::queues_ok))]
pub fn tile_ok_at(words: &[u64], at: usize) -> bool
    requires { at + tile_size ≤ length words.now }
    ensures { result ≡ tile_ok (tile_block_at words.now at) }
{
    head_ok(rows::row(words, at)) & queues_ok(words, at + TILE_NOC1)
}
