// Tags of a job's fields (01, 'Jobs'). A call's tag is its number everywhere. Numbers and no enum: job bytes hold them, and
// `bench::at_tile`, `bench::at_home` and `jobs::run_call` have an answer for every tag.
pub const TAG_TILES: u64 = 1;

pub const TAG_LINE: u64 = 2;

pub const TAG_MEMORY: u64 = 3;

pub const TAG_LOAD: u64 = 16;

pub const TAG_STORE: u64 = 17;

pub const TAG_EVICT: u64 = 18;

pub const TAG_TAKING: u64 = 19;

pub const TAG_TO_TILE: u64 = 20;

pub const TAG_FROM_TILE: u64 = 21;

pub const TAG_MEMORY_STEP: u64 = 22;

pub const TAG_MEMORY_ACK: u64 = 23;

pub const TAG_HOME_EVICTION: u64 = 24;
