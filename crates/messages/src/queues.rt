// The queues of the messages that a call sent, from the two numbers of its answer.
ghost use Rattle.std.specs.Prelude.{◌≡◌, length, get_or, slice_get};
ghost use Rattle.numbers.specs.Limits.{most_tiles};
ghost use Rattle.protocol.specs.Home.{members};
ghost use Rattle.messages.specs.Queues.{bench_queue, no_queue, queue_of_tile, sent_queues};

use layout::BenchQueue;
use masks::Tiles;
use numbers::queues::{FROM_MEMORY, NO_QUEUE, NOC1, NOC3, NOC3_THEN_NOC1, TO_MEMORY};

// A queue of no message, and no Option: the definitions (`no_queue`) and C give it the number 0.
const NONE: BenchQueue = BenchQueue {
    queue: NO_QUEUE,
    tile: 0,
};

// The tile of the mask that has this many of its tiles below it.
fn member(mask: u64, index: u64) -> Option<u64>
    ensures { result ≡ slice_get (members mask most_tiles) index }
{
    Tiles::of(mask).nth(index as usize)
}

#[tactic(auto, using(crate::proofs::Members::ones_count))]
fn member_count(mask: u64) -> u64
    ensures { result ≡ length (members mask most_tiles) }
{
    u64::from(mask.count_ones())
}

#[tactic(auto, unfolding(crate::specs::Queues::queue_of_tile))]
fn tile_queue(queue: u64, tile: Option<u64>) -> BenchQueue
    ensures { result ≡ queue_of_tile queue tile }
{
    tile.map_or(NONE, |tile| BenchQueue { queue, tile })
}

// The queue of the message of this index, from 0, of an answer: no queue where it has no such message.
#[tactic(auto, using(crate::proofs::Members::found), unfolding(crate::specs::Queues::sent_queues))]
pub fn queue_of(sent: u64, tiles: u64, index: u64) -> BenchQueue
    ensures { result ≡ get_or (sent_queues sent tiles) index no_queue }
{
    match (sent, index) {
        (NOC1..=NOC3, _) => tile_queue(sent, member(tiles, index)),
        (TO_MEMORY | FROM_MEMORY, 0) => BenchQueue {
            queue: sent,
            tile: 0,
        },
        (NOC3_THEN_NOC1, 0) => tile_queue(NOC3, member(tiles, 0)),
        (NOC3_THEN_NOC1, 1) => tile_queue(NOC1, member(tiles, 0)),
        _ => NONE,
    }
}

// How many messages an answer has.
#[tactic(auto, using(crate::proofs::Members::counted), unfolding(crate::specs::Queues::sent_queues))]
pub fn count(sent: u64, tiles: u64) -> u64
    ensures { result ≡ length (sent_queues sent tiles) }
{
    match sent {
        NOC1..=NOC3 => member_count(tiles),
        TO_MEMORY | FROM_MEMORY => 1,
        NOC3_THEN_NOC1 => if member_count(tiles) == 0 { 0 } else { 2 },
        _ => 0,
    }
}
