// Where the parts of a bench stand in its words (docs/LAYOUT.md): places in a row, in a tile's block and in the home's, and their sizes.
ghost use Rattle.std.specs.Prelude.{◌≡◌, ◌<◌};
ghost use Rattle.numbers.specs.Limits.{most_tiles};
ghost use Rattle.layout.specs.Blocks.{tile_place};

// A row: four numbers and eight words.
pub const ROW_WORDS: usize = 12;
// where a row's eight words stand
pub const ROW_DATA: usize = 4;

// A message is a row: type, word, state, a flag, and its data; a queue (01's way) two rows, its first message and
// its second.
pub const MESSAGE_TYPE: usize = 0;

pub const MESSAGE_WORD: usize = 1;

pub const MESSAGE_STATE: usize = 2;

pub const MESSAGE_FLAG: usize = 3;
// the second message of a queue
pub const SECOND: usize = 12;

pub const QUEUE_WORDS: usize = 24;

// A tile's block: state, what the tile waits for with its word and value, its line, and its three queues.
pub const TILE_STATE: usize = 0;

pub const TILE_WAITING: usize = 1;

pub const TILE_WORD: usize = 2;

pub const TILE_VALUE: usize = 3;

pub const TILE_LINE: usize = 4;

pub const TILE_NOC1: usize = 12;

pub const TILE_NOC2: usize = 36;

pub const TILE_NOC3: usize = 60;

pub const TILE_WORDS: usize = 84;

// The home's block, at the front: tile count, phase; the line's row (valid, dirty, directory, holders, words); the
// control row (last taken, marks, requester, owed tiles, memory's words); the queues to and from memory.
pub const HOME_TILE_COUNT: usize = 0;

pub const HOME_PHASE: usize = 1;

pub const HOME_LINE_ROW: usize = 2;

pub const HOME_VALID: usize = 2;

pub const HOME_DIRTY: usize = 3;

pub const HOME_DIRECTORY: usize = 4;
// the mask of sharers in S, the owner in E
pub const HOME_HOLDERS: usize = 5;

pub const HOME_LINE: usize = 6;

pub const HOME_CONTROL_ROW: usize = 14;

pub const HOME_LAST_TAKEN: usize = 14;

pub const HOME_MARKS: usize = 15;

pub const HOME_REQUESTER: usize = 16;

pub const HOME_OWED: usize = 17;

pub const HOME_MEMORY: usize = 18;

pub const HOME_TO_MEMORY: usize = 26;

pub const HOME_FROM_MEMORY: usize = 50;

pub const HOME_WORDS: usize = 74;

// Where a tile's block stands: behind the home's and those of the tiles before it.
pub fn tile_at(tile: u64) -> usize
    requires { tile < most_tiles }
    ensures { result ≡ tile_place tile }
{
    HOME_WORDS + TILE_WORDS * tile as usize
}
