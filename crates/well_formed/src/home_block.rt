// Is the home's block the encoding of what it is read as?
ghost use Rattle.std.specs.Prelude.{◌≡◌, ◌&&◌, ◌≤◌, ◌<◌, length, get_or};
ghost use Rattle.layout.specs.Places.{home_tile_count_place, home_line_row_place, home_to_memory_place, home_from_memory_place, home_size};
ghost use Rattle.layout.specs.Blocks.{row_at, home_block_at};
ghost use Rattle.layout.specs.Encode.{enc_line};
ghost use Rattle.layout.specs.Decode.{dec_line};
ghost use Rattle.layout.specs.Canonical.{same_row, home_ok};
ghost use Rattle.well_formed.specs.Rows.{none_at};
ghost use Rattle.well_formed.specs.Blocks.{memory_ok};

use crate::messages::{FromMemory, ToMemory};
use crate::queues::queue_ok;
use crate::{fields, phases, rows};
use layout::places::{
    HOME_DIRECTORY, HOME_DIRTY, HOME_FROM_MEMORY, HOME_HOLDERS, HOME_LAST_TAKEN, HOME_LINE_ROW,
    HOME_MARKS, HOME_OWED, HOME_PHASE, HOME_REQUESTER, HOME_TILE_COUNT, HOME_TO_MEMORY, HOME_VALID,
};

fn line_ok(words: &[u64], count: u64) -> bool
    requires { (home_to_memory_place ≤ length words.now) × (0 < count) }
    ensures { result ≡ same_row (enc_line (dec_line count (row_at words.now home_line_row_place))) (row_at words.now home_line_row_place) }
{
    match words[HOME_VALID] {
        0 => rows::bare(rows::row(words, HOME_LINE_ROW)),
        1 => {
            fields::flag_ok(words[HOME_DIRTY])
                & fields::directory_ok(words[HOME_DIRECTORY], words[HOME_HOLDERS], count)
        }
        _ => false,
    }
}

#[tactic(auto, using(crate::proofs::NumberLaws::or_clear))]
fn both_empty(words: &[u64]) -> bool
    requires { home_size ≤ length words.now }
    ensures { result ≡ (none_at words.now home_to_memory_place && none_at words.now home_from_memory_place) }
{
    (rows::or_queue(words, HOME_TO_MEMORY) | rows::or_queue(words, HOME_FROM_MEMORY)) == 0
}

// The queues to and from memory; mostly both are empty.
#[tactic(auto, using(crate::proofs::BlockLaws::memory_none), unfolding(crate::specs::Blocks::memory_ok))]
fn memory_ok(words: &[u64]) -> bool
    requires { home_size ≤ length words.now }
    ensures { result ≡ memory_ok words.now }
{
    if (words[HOME_TO_MEMORY] | words[HOME_FROM_MEMORY]) == 0 {
        both_empty(words)
    } else {
        queue_ok::<ToMemory>(words, HOME_TO_MEMORY)
            & queue_ok::<FromMemory>(words, HOME_FROM_MEMORY)
    }
}

pub fn home_ok_at(words: &[u64]) -> bool
    requires { (home_size ≤ length words.now) × (0 < get_or words.now home_tile_count_place 0) }
    ensures { result ≡ home_ok (home_block_at words.now) }
{
    let count = words[HOME_TILE_COUNT];
    line_ok(words, count)
        && phases::phase_numbers_ok(
            count,
            words[HOME_PHASE],
            words[HOME_DIRECTORY],
            words[HOME_REQUESTER],
            words[HOME_OWED],
        )
        && fields::below(words[HOME_LAST_TAKEN], count)
        && fields::in_mask(words[HOME_MARKS], count)
        && memory_ok(words)
}
