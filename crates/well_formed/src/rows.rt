// Tests of rows where they stand: the numbers that have to be 0 are or-ed together.
ghost use Rattle.std.specs.Prelude.{◌≡◌, ◌+◌, ◌≤◌, eqb, length};
ghost use Rattle.layout.specs.Places.{row_size, queue_size};
ghost use Rattle.layout.specs.Blocks.{row_at};
ghost use Rattle.layout.specs.Encode.{zeros, no_row};
ghost use Rattle.layout.specs.Canonical.{same, same_row};
ghost use Rattle.well_formed.specs.Rows.{none_at, clear_behind, bare, only_data};

use layout::places::{
    MESSAGE_FLAG, MESSAGE_STATE, MESSAGE_TYPE, MESSAGE_WORD, ROW_DATA, ROW_WORDS, SECOND,
};

// The row at a place. Not first_chunk and unwrap: they test the length when they run, and a bench is then tested a third slower.
pub fn row(words: &[u64], at: usize) -> &[u64; ROW_WORDS]
    requires { at + row_size ≤ length words.now }
    ensures { row_at result.now 0 ≡ row_at words.now at }
{
    let (rows, _) = words[at..at + ROW_WORDS].as_chunks();
    &rows[0]
}

// 0 exactly if the eight words of the row are 0.
#[tactic(auto, using(crate::proofs::RowLaws::or_data))]
fn or_data(row: &[u64; ROW_WORDS]) -> u64
    ensures { eqb result 0 ≡ same zeros (row_at row.now 0).words }
{
    row[ROW_DATA..].iter().fold(0, |all, word| all | word)
}

pub fn clear_data(row: &[u64; ROW_WORDS]) -> bool
    ensures { result ≡ same zeros (row_at row.now 0).words }
{
    or_data(row) == 0
}

// 0 exactly if the three numbers between type and data are 0.
#[tactic(auto, using(crate::proofs::NumberLaws::none), unfolding(layout::specs::Blocks::row_at, crate::specs::Rows::only_data))]
fn or_numbers(row: &[u64; ROW_WORDS]) -> u64
    ensures { eqb result 0 ≡ only_data (row_at row.now 0) }
{
    row[MESSAGE_WORD] | row[MESSAGE_STATE] | row[MESSAGE_FLAG]
}

#[tactic(auto, using(crate::proofs::NumberLaws::none), unfolding(layout::specs::Blocks::row_at, crate::specs::Rows::clear_behind))]
pub fn clear_behind(row: &[u64; ROW_WORDS]) -> bool
    ensures { result ≡ clear_behind (row_at row.now 0) }
{
    (row[MESSAGE_STATE] | row[MESSAGE_FLAG] | or_data(row)) == 0
}

pub fn bare(row: &[u64; ROW_WORDS]) -> bool
    ensures { result ≡ bare (row_at row.now 0) }
{
    (or_numbers(row) | or_data(row)) == 0
}

pub fn only_data(row: &[u64; ROW_WORDS]) -> bool
    ensures { result ≡ only_data (row_at row.now 0) }
{
    or_numbers(row) == 0
}

// 0 exactly if the row is a free place.
fn or_row(row: &[u64; ROW_WORDS]) -> u64
    ensures { eqb result 0 ≡ same_row no_row (row_at row.now 0) }
{
    row[MESSAGE_TYPE] | or_numbers(row) | or_data(row)
}

pub fn no_message(row: &[u64; ROW_WORDS]) -> bool
    ensures { result ≡ same_row no_row (row_at row.now 0) }
{
    or_row(row) == 0
}

// 0 exactly if the queue is empty.
#[tactic(auto, using(crate::proofs::NumberLaws::or_clear), unfolding(crate::specs::Rows::none_at))]
pub fn or_queue(words: &[u64], at: usize) -> u64
    requires { at + queue_size ≤ length words.now }
    ensures { eqb result 0 ≡ none_at words.now at }
{
    or_row(row(words, at)) | or_row(row(words, at + SECOND))
}

pub fn no_messages(words: &[u64], at: usize) -> bool
    requires { at + queue_size ≤ length words.now }
    ensures { result ≡ none_at words.now at }
{
    or_queue(words, at) == 0
}
