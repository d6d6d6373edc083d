// The numbers of the home's block where they stand, at the front of a bench's words: read, and written.
ghost use Rattle.std.specs.Prelude.{◌≡◌, ◌≤◌, length};
ghost use Rattle.layout.specs.Places.{home_size};
ghost use Rattle.layout.specs.Blocks.{home_block_at};
ghost use Rattle.home_rules.specs.Steps.{numbers_in, with_numbers};
ghost use Rattle.home_words.specs.InPlace.{with_phase, with_control};

use crate::Home;
use home_rules::HomeNumbers;
use layout::places::{
    HOME_CONTROL_ROW, HOME_DIRECTORY, HOME_DIRTY, HOME_HOLDERS, HOME_LAST_TAKEN, HOME_LINE_ROW,
    HOME_MARKS, HOME_OWED, HOME_PHASE, HOME_REQUESTER, HOME_TO_MEMORY, HOME_VALID, SECOND,
};

// Of a bench's words, and no `&Home` as below: the callers, in crate arbiter, have words, and each would cut the array out first
// (`let Some(home) = words.first_chunk() else { unreachable!() };`) under the same clause.
#[tactic(auto, unfolding(home_rules::specs::Steps::numbers_in, layout::specs::Blocks::home_block_at, layout::specs::Blocks::pair_at, layout::specs::Blocks::row_at))]
pub fn read_numbers(words: &[u64]) -> HomeNumbers
    requires { home_size ≤ length words.now }
    ensures { result ≡ numbers_in (home_block_at words.now) }
{
    HomeNumbers {
        phase: words[HOME_PHASE],
        valid: words[HOME_VALID],
        dirty: words[HOME_DIRTY],
        directory: words[HOME_DIRECTORY],
        holders: words[HOME_HOLDERS],
        last: words[HOME_LAST_TAKEN],
        marks: words[HOME_MARKS],
        requester: words[HOME_REQUESTER],
        owed: words[HOME_OWED],
        second: words[HOME_TO_MEMORY + SECOND],
    }
}

fn write_phase(home: &mut Home, numbers: HomeNumbers)
    ensures { home_block_at home.new ≡ with_phase numbers.phase numbers.valid numbers.dirty numbers.directory numbers.holders (home_block_at home.old) }
{
    home[HOME_PHASE] = numbers.phase;
    layout::write_four(
        home,
        HOME_LINE_ROW,
        numbers.valid,
        numbers.dirty,
        numbers.directory,
        numbers.holders,
    );
}

fn write_control(home: &mut Home, numbers: HomeNumbers)
    ensures { home_block_at home.new ≡ with_control numbers.last numbers.marks numbers.requester numbers.owed (home_block_at home.old) }
{
    layout::write_four(
        home,
        HOME_CONTROL_ROW,
        numbers.last,
        numbers.marks,
        numbers.requester,
        numbers.owed,
    );
}

#[tactic(auto, unfolding(home_rules::specs::Steps::with_numbers))]
pub fn write_numbers(home: &mut Home, numbers: HomeNumbers)
    ensures { home_block_at home.new ≡ with_numbers numbers (home_block_at home.old) }
{
    write_phase(home, numbers);
    write_control(home, numbers);
}
