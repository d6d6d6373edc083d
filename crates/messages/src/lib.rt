// The messages that a call sent, read out of the words after it. An answer says in two numbers, `sent` and `tiles`, on which queues they
// are; each is the last of its queue.
// - queues (specs/Queues): the queues of an answer; lib (specs/Rows): the message on one; specs/LastMessages is a device of the proofs
#![tactic(auto)]

mod queues;

ghost use Rattle.std.specs.Prelude.{◌≡◌, ◌≤◌, length, get_or};
ghost use Rattle.numbers.specs.Queues.{noc1_queue, noc3_queue};
ghost use Rattle.layout.specs.Encode.{no_row};
ghost use Rattle.calls.specs.Calls.{tile_count};
ghost use Rattle.messages.specs.Queues.{sent_queues};
ghost use Rattle.messages.specs.Rows.{places_end, last_row_at, tile_row, row_on, sent_message};

use layout::places::{
    HOME_FROM_MEMORY, HOME_TILE_COUNT, HOME_TO_MEMORY, QUEUE_WORDS, SECOND, TILE_NOC1, tile_at,
};
use layout::{BenchQueue, Row, bare_row, read_row};
use numbers::limits::MOST_TILES;
use numbers::queues::{FROM_MEMORY, NOC1, NOC3, TO_MEMORY};
use numbers::types::NO_MESSAGE;
pub use queues::count;

// A message that was sent: the number of its queue, the tile whose queue it is (0 for memory's), its row: type, word, state, flag, data.
// Where there is none the row has no type; no Option, since the definition sent_message gives a record in every case.
#[derive(Clone, Copy)]
pub struct Sent {
    pub queue: u64,
    pub tile: u64,
    pub row: Row,
}

fn no_row() -> Row
    ensures { result ≡ no_row }
{
    bare_row(NO_MESSAGE, 0, 0, 0)
}

// The last message of the queue that stands at a place.
#[tactic(auto, unfolding(crate::specs::Rows::last_row_at, crate::specs::Rows::last_row, layout::specs::Blocks::pair_at, layout::specs::Blocks::row_at))]
fn last_row_at(words: &[u64], at: usize) -> Row
    requires { at ≤ places_end }
    ensures { result ≡ last_row_at words.now at }
{
    if at + QUEUE_WORDS > words.len() {
        return no_row();
    }
    match words[at + SECOND] {
        NO_MESSAGE => read_row(words, at),
        _ => read_row(words, at + SECOND),
    }
}

fn tile_count(words: &[u64]) -> u64
    ensures { result ≡ tile_count words.now }
{
    words.get(HOME_TILE_COUNT).copied().unwrap_or(0)
}

// Of NoC1, NoC2 or NoC3 of a tile of the bench.
#[tactic(auto, unfolding(crate::specs::Rows::tile_row))]
fn tile_row(words: &[u64], on: BenchQueue) -> Row
    requires { (noc1_queue ≤ on.queue) × (on.queue ≤ noc3_queue) }
    ensures { result ≡ tile_row words.now on.queue on.tile }
{
    let BenchQueue { queue, tile } = on;
    if tile >= MOST_TILES || tile >= tile_count(words) {
        return no_row();
    }
    let first = tile_at(tile) + TILE_NOC1;
    last_row_at(words, first + QUEUE_WORDS * ((queue - NOC1) as usize))
}

#[tactic(auto, unfolding(crate::specs::Rows::row_on))]
fn row_on(words: &[u64], on: BenchQueue) -> Row
    ensures { result ≡ row_on words.now on.queue on.tile }
{
    match on.queue {
        NOC1..=NOC3 => tile_row(words, on),
        TO_MEMORY => last_row_at(words, HOME_TO_MEMORY),
        FROM_MEMORY => last_row_at(words, HOME_FROM_MEMORY),
        _ => no_row(),
    }
}

// The message of this index, from 0, of an answer, out of the words after the call.
#[tactic(auto, unfolding(crate::specs::Rows::sent_message, crate::specs::Rows::sent_at))]
pub fn message(words: &[u64], sent: u64, tiles: u64, index: u64) -> Sent
    ensures { result ≡ sent_message words.now sent tiles index }
{
    let on = queues::queue_of(sent, tiles, index);
    Sent {
        queue: on.queue,
        tile: on.tile,
        row: row_on(words, on),
    }
}
