// Words read and written a row at a time: four numbers and eight words. A message is a row, a queue (01's way) a pair of rows. The words
// and a place are given, and no array of a row's size, which would have to be cut out at each call: `read_row(words, at)` is plainer than
// `read_row(&words[at..at + ROW_WORDS].as_chunks().0[0])`. So the clause that the row lies inside stands in each contract.
ghost use Rattle.std.specs.Prelude.{◌≡◌, ◌+◌, ◌≤◌, length, take, drop, ◌∷◌, []};
ghost use Rattle.lists.specs.Over.{over};
ghost use Rattle.numbers.specs.Limits.{words_in_line};
ghost use Rattle.layout.specs.Places.{row_size, row_data_place};
ghost use Rattle.layout.specs.Blocks.{row_at, row_words};

use crate::places::ROW_DATA;
use numbers::limits::LINE_LENGTH;

#[derive(Clone, Copy)]
pub struct Row {
    pub n0: u64,
    pub n1: u64,
    pub n2: u64,
    pub n3: u64,
    pub words: [u64; LINE_LENGTH],
}

// A queue, for the definitions alone, as are the two blocks: the code reads and writes rows and single numbers.
#[derive(Clone, Copy)]
pub struct Pair {
    pub a: Row,
    pub b: Row,
}

// A tile: its head, and its queues on NoC1, NoC2 and NoC3.
#[derive(Clone, Copy)]
pub struct TileBlock {
    pub head: Row,
    pub noc1: Pair,
    pub noc2: Pair,
    pub noc3: Pair,
}

// The number of tiles, the home's phase, its line, its control row with the memory's words, the queues to and from memory.
#[derive(Clone, Copy)]
pub struct HomeBlock {
    pub count: u64,
    pub phase: u64,
    pub line: Row,
    pub control: Row,
    pub out: Pair,
    pub back: Pair,
}

// Eight words from a place on.
pub fn read_eight(words: &[u64], at: usize) -> [u64; LINE_LENGTH]
    requires { at + words_in_line ≤ length words.now }
    ensures { result ≡ take words_in_line (drop at words.now) }
{
    let mut line = [0; LINE_LENGTH];
    line.copy_from_slice(&words[at..at + LINE_LENGTH]);
    line
}

#[tactic(auto, unfolding(crate::specs::Blocks::row_at))]
pub fn read_row(words: &[u64], at: usize) -> Row
    requires { at + row_size ≤ length words.now }
    ensures { result ≡ row_at words.now at }
{
    Row {
        n0: words[at],
        n1: words[at + 1],
        n2: words[at + 2],
        n3: words[at + 3],
        words: read_eight(words, at + ROW_DATA),
    }
}

#[tactic(auto, unfolding(lists::specs::Over::over))]
pub fn write_four(words: &mut [u64], at: usize, n0: u64, n1: u64, n2: u64, n3: u64)
    requires { at + row_data_place ≤ length words.old }
    ensures { words.new ≡ over words.old at (n0 ∷ n1 ∷ n2 ∷ n3 ∷ []) }
{
    words[at..at + ROW_DATA].copy_from_slice(&[n0, n1, n2, n3]);
}

#[tactic(auto, unfolding(lists::specs::Over::over))]
pub fn write_eight(words: &mut [u64], at: usize, line: [u64; LINE_LENGTH])
    requires { at + words_in_line ≤ length words.old }
    ensures words_after { words.new ≡ over words.old at line }
    ensures full { length line ≡ words_in_line }
{
    words[at..at + LINE_LENGTH].copy_from_slice(&line);
}

#[tactic(auto, using(crate::proofs::Over::write_row))]
pub fn write_row(words: &mut [u64], at: usize, row: Row)
    requires { at + row_size ≤ length words.old }
    ensures words_after { words.new ≡ over words.old at (row_words row) }
    ensures full { length row.words ≡ words_in_line }
{
    write_four(words, at, row.n0, row.n1, row.n2, row.n3);
    write_eight(words, at + ROW_DATA, row.words);
}
