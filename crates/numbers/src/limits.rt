// Sizes that 01 fixes.
// tiles of a bench, 1 to 64
pub const MOST_TILES: u64 = 64;
// words of a line, and so word numbers below 8
pub const LINE_WORDS: u64 = 8;
// the same, as the length of an array
pub const LINE_LENGTH: usize = 8;
// a line address is a multiple of it
pub const LINE_BYTES: u64 = 64;
// bytes of a job
pub const MOST_JOB_BYTES: usize = 65536;
