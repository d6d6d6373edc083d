// A bench in lent words (docs/LAYOUT.md): where its parts stand, what their numbers mean, and rows and queues read and written in place.
// - places, codes (specs/Places, specs/Codes): the places and the numbers by name
// - rows (specs/Blocks): rows of four numbers and eight words; the definitions put blocks together of them
// - queues (specs/Queues): a message put on a queue or taken off
// - specs/Encode, Decode, Canonical: a bench as numbers and back; Range: what 01 calls in range
#![tactic(auto)]

pub mod codes;
pub mod places;
mod queues;
mod rows;

pub use queues::{BenchQueue, bare_row, has_room_at, pop_at, push_at, push_numbers_at, row_of};
pub use rows::{
    HomeBlock, Pair, Row, TileBlock, read_eight, read_row, write_eight, write_four, write_row,
};
