// The memory's step: the front message to it is answered. LOAD_MEM reads its words, STORE_MEM replaces them.
ghost use Rattle.std.specs.Prelude.{◌≡◌, length};
ghost use Rattle.layout.specs.Places.{home_size};
ghost use Rattle.layout.specs.Blocks.{home_block_at};
ghost use Rattle.calls.specs.Answers.{told};
ghost use Rattle.home_rules.specs.Steps.{memory_answers, memory_step};
ghost use Rattle.home_words.specs.InPlace.{with_memory_words, without_request, with_answer, memory_stepped};
ghost use Rattle.home_words.specs.Commits.{Committed};
ghost use Rattle.home_words.specs.Forwards.{HoldTiles};

use crate::Home;
use calls::{Accepted, Answer};
use layout::Row;
use layout::places::{HOME_FROM_MEMORY, HOME_MEMORY, HOME_TO_MEMORY, ROW_DATA};
use numbers::kinds::Kind;
use numbers::limits::LINE_LENGTH;
use numbers::queues::Queues;
use numbers::refusals::Refusal;
use numbers::types::{LOAD_MEM, LOAD_MEM_ACK, NO_MESSAGE, STORE_MEM_ACK};

fn write_memory(home: &mut Home, memory: [u64; LINE_LENGTH])
    ensures { home_block_at home.new ≡ with_memory_words memory (home_block_at home.old) }
{
    layout::write_eight(home, HOME_MEMORY, memory);
}

fn remove_request(home: &mut Home)
    ensures { home_block_at home.new ≡ without_request (home_block_at home.old) }
{
    layout::pop_at(home, HOME_TO_MEMORY);
}

fn put_answer(home: &mut Home, message: Row)
    ensures { home_block_at home.new ≡ with_answer message (home_block_at home.old) }
{
    layout::push_at(home, HOME_FROM_MEMORY, message);
}

// The memory's words after the step, and its answer.
#[tactic(auto, unfolding(home_rules::specs::Steps::with_memory))]
fn make_memory_step(home: &mut Home, memory: [u64; LINE_LENGTH], message: Row)
    ensures stepped { home_block_at home.new ≡ memory_stepped memory message (home_block_at home.old) }
    ensures full { length home.new ≡ home_size }
{
    write_memory(home, memory);
    remove_request(home);
    put_answer(home, message);
}

fn commit_memory(words: &mut [u64], count: u64, memory: [u64; LINE_LENGTH], message: Row) -> Answer
    requires { HoldTiles words.old count }
    ensures { Committed words.old words.old count 0 (memory_answers (home_block_at words.old) memory message) (told result) words.new }
{
    if !layout::has_room_at(words, HOME_FROM_MEMORY) {
        return Err(Refusal::QueueFull);
    }
    let Some(home) = words.first_chunk_mut() else {
        unreachable!()
    };
    make_memory_step(home, memory, message);
    Ok(Accepted {
        kind: Kind::Sent,
        value: 0,
        sent: Queues::FromMemory,
        tiles: 0,
    })
}

pub fn memory_step(words: &mut [u64], count: u64) -> Answer
    requires { HoldTiles words.old count }
    ensures { Committed words.old words.old count 0 (memory_step (home_block_at words.old)) (told result) words.new }
{
    match words[HOME_TO_MEMORY] {
        NO_MESSAGE => Err(Refusal::NothingThere),
        LOAD_MEM => {
            let memory = layout::read_eight(words, HOME_MEMORY);
            let acked = layout::row_of(LOAD_MEM_ACK, 0, 0, 0, memory);
            commit_memory(words, count, memory, acked)
        }
        _ => {
            let stored = layout::read_eight(words, HOME_TO_MEMORY + ROW_DATA);
            let acked = layout::bare_row(STORE_MEM_ACK, 0, 0, 0);
            commit_memory(words, count, stored, acked)
        }
    }
}
