// Places and sizes in a job (01, 'Jobs'), in bytes.

// ---- a field: a tag byte, a length of two bytes, the value
pub const LENGTH_AT: usize = 1;

pub const LENGTH_BYTES: usize = 2;

pub const HEAD_BYTES: usize = LENGTH_AT + LENGTH_BYTES;

// ---- the values of the header: tile count, line address, eight words of memory
pub const TILE_COUNT_BYTES: usize = 1;

pub const LINE_ADDRESS_BYTES: usize = 6;

pub const MEMORY_BYTES: usize = 64;

// ---- the value of a call: as many of tile, word and stored word as it has
pub const TILE_NUMBER_AT: usize = 0;

pub const TILE_NUMBER_BYTES: usize = 1;

pub const WORD_NUMBER_AT: usize = 1;

pub const WORD_NUMBER_BYTES: usize = 1;

pub const STORED_WORD_AT: usize = 2;
// a stored word, or one of memory
pub const WORD_BYTES: usize = 8;

pub const LOAD_BYTES: usize = TILE_NUMBER_BYTES + WORD_NUMBER_BYTES;

pub const STORE_BYTES: usize = LOAD_BYTES + WORD_BYTES;

// ---- the header: how many fields, where their values stand, and where the first call stands
pub const HEADER_FIELDS: usize = 3;

pub const TILE_COUNT_AT: usize = HEAD_BYTES;

pub const LINE_ADDRESS_AT: usize = TILE_COUNT_AT + TILE_COUNT_BYTES + HEAD_BYTES;

pub const MEMORY_AT: usize = LINE_ADDRESS_AT + LINE_ADDRESS_BYTES + HEAD_BYTES;

pub const HEADER_BYTES: usize = MEMORY_AT + MEMORY_BYTES;
