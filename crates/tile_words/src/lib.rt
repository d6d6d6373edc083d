// A tile's step on the words of a bench: its numbers are read, its move is decided (crate tile_rules), and whether it is refused is known
// before a word is written.
// - fields: the numbers and the line of a tile's block, read and written where they stand; queues: a message sent, or taken off
// - changes: what a move changes in place; moves: a move made
// - specs/InPlace: what a step promises, as a device of the proofs; proofs/Part: a tile's words as a part of a bench's
#![tactic(auto)]

ghost use Rattle.std.specs.Prelude.{◌≡◌, ◌+◌, ◌≤◌, length};
ghost use Rattle.layout.specs.Places.{tile_size};
ghost use Rattle.tile_rules.specs.Steps.{tile_step_on};
ghost use Rattle.tile_words.specs.InPlace.{Steps, told_step, tile_in};

use layout::places::TILE_WORDS;
use numbers::kinds::Kind;
use numbers::queues::Queues;
use numbers::refusals::Refusal;

mod changes;
mod fields;
mod moves;
mod queues;

// The words of a tile's block.
type Tile = [u64; TILE_WORDS];

// What an accepted step answers.
#[derive(Clone, Copy)]
pub struct StepAnswer {
    pub kind: Kind,
    pub value: u64,
    pub sent: Queues,
}

// One of a tile's four calls by tag: load, store, evict, else delivery to the tile. It cuts the tile out of a slice itself: where step_at
// does (`words[..].as_mut_array()`), the proof did not close, as it knows only the length of the words given back.
#[tactic(auto, unfolding(tile_rules::specs::Steps::tile_step_on, tile_rules::specs::Steps::move_applied))]
fn step(block: &mut [u64], tag: u64, word: u64, value: u64) -> Result<StepAnswer, Refusal>
    requires { length block.old ≡ tile_size }
    ensures { told_step result (tile_in block.new) ≡ tile_step_on tag word value (tile_in block.old) }
{
    let Some(tile) = block.as_mut_array() else {
        unreachable!()
    };
    let numbers = fields::read_numbers(tile);
    let made = tile_rules::step(numbers, tag, word, value)?;
    made.check_room(numbers)?;
    moves::make_move(tile, made);
    Ok(StepAnswer {
        kind: made.kind(),
        value: moves::loaded_value(tile, made),
        sent: made.queues(),
    })
}

// The same of the tile whose words begin at place `at`.
pub fn step_at(
    words: &mut [u64],
    at: usize,
    tag: u64,
    word: u64,
    value: u64,
) -> Result<StepAnswer, Refusal>
    requires { at + tile_size ≤ length words.old }
    ensures { Steps words.old at (tile_step_on tag word value) result words.new }
{
    step(&mut words[at..at + TILE_WORDS], tag, word, value)
}
