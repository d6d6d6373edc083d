// Queues of a bench where they stand in its words: two rows each, the first message and the second. As in rows, the words and a place are
// given, and no array of a queue's size; so the clause that the queue lies inside stands in each contract.
ghost use Rattle.std.specs.Prelude.{◌≡◌, ◌+◌, ◌≤◌, length};
ghost use Rattle.lists.specs.Over.{over};
ghost use Rattle.layout.specs.Places.{queue_size, row_size};
ghost use Rattle.layout.specs.Blocks.{pair_at, pair_words, PairFull};
ghost use Rattle.layout.specs.Encode.{zeros, row};
ghost use Rattle.layout.specs.Queues.{has_room, free_place, push_row, push_numbers, pop_row};

use crate::places::SECOND;
use crate::rows::{Row, read_row, write_four, write_row};
use numbers::limits::LINE_LENGTH;
use numbers::types::NO_MESSAGE;

// A queue of a bench: its number, and the tile whose queue it is (0 for memory's).
#[derive(Clone, Copy)]
pub struct BenchQueue {
    pub queue: u64,
    pub tile: u64,
}

// No Row::new and Row::bare: the contracts' definition of both is specs/Encode.row, and the callers give the four numbers by position too.
pub fn row_of(n0: u64, n1: u64, n2: u64, n3: u64, words: [u64; LINE_LENGTH]) -> Row
    ensures { result ≡ row n0 n1 n2 n3 words }
{
    Row {
        n0,
        n1,
        n2,
        n3,
        words,
    }
}

pub fn bare_row(n0: u64, n1: u64, n2: u64, n3: u64) -> Row
    ensures { result ≡ row n0 n1 n2 n3 zeros }
{
    row_of(n0, n1, n2, n3, [0; LINE_LENGTH])
}

// Has the queue at a place room?
#[tactic(auto, unfolding(crate::specs::Queues::has_room, crate::specs::Blocks::pair_at, crate::specs::Blocks::row_at))]
pub fn has_room_at(words: &[u64], at: usize) -> bool
    requires { at + queue_size ≤ length words.now }
    ensures { result ≡ has_room (pair_at words.now at) }
{
    words[at + SECOND] == NO_MESSAGE
}

// The first free place of a queue that has room.
#[tactic(auto, unfolding(crate::specs::Queues::free_place))]
fn free_place(words: &[u64], at: usize) -> usize
    requires { at + queue_size ≤ length words.now }
    ensures free { result ≡ free_place words.now at }
    ensures within { result + row_size ≤ length words.now }
{
    if words[at] == NO_MESSAGE {
        at
    } else {
        at + SECOND
    }
}

pub fn push_at(words: &mut [u64], at: usize, message: Row)
    requires { at + queue_size ≤ length words.old }
    ensures words_after { words.new ≡ over words.old at (pair_words (push_row (pair_at words.old at) message)) }
    ensures full { PairFull (push_row (pair_at words.old at) message) }
{
    write_row(words, free_place(words, at), message);
}

// A message without data: its numbers alone are written.
pub fn push_numbers_at(words: &mut [u64], at: usize, n0: u64, n1: u64, n2: u64, n3: u64)
    requires { at + queue_size ≤ length words.old }
    ensures words_after { words.new ≡ over words.old at (pair_words (push_numbers (pair_at words.old at) n0 n1 n2 n3)) }
    ensures full { PairFull (push_numbers (pair_at words.old at) n0 n1 n2 n3) }
{
    write_four(words, free_place(words, at), n0, n1, n2, n3);
}

pub fn pop_at(words: &mut [u64], at: usize)
    requires { at + queue_size ≤ length words.old }
    ensures words_after { words.new ≡ over words.old at (pair_words (pop_row (pair_at words.old at))) }
    ensures full { PairFull (pop_row (pair_at words.old at)) }
{
    let free = bare_row(NO_MESSAGE, 0, 0, 0);
    if words[at + SECOND] == NO_MESSAGE {
        write_row(words, at, free);
    } else {
        let second = read_row(words, at + SECOND);
        write_row(words, at, second);
        write_row(words, at + SECOND, free);
    }
}
