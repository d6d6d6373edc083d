// The numbers by which a bench's words say the home's phase, the directory's state and what a tile waits for. Numbers and no enum: the
// words are lent by C (docs/LAYOUT.md), and which of them are a bench is decided on every number that may stand there.

// The home's phase: idle; waiting for memory load, for the owner, for invalidations (on behalf of a load, a store,
// an eviction), for memory store.
pub const PHASE_IDLE: u64 = 0;

pub const PHASE_LOADING_FOR_LOAD: u64 = 1;

pub const PHASE_LOADING_FOR_STORE: u64 = 2;

pub const PHASE_OWNER_FOR_LOAD: u64 = 3;

pub const PHASE_OWNER_FOR_STORE: u64 = 4;

pub const PHASE_OWNER_FOR_EVICTION: u64 = 5;

pub const PHASE_ACKS_FOR_STORE: u64 = 6;

pub const PHASE_ACKS_FOR_EVICTION: u64 = 7;

pub const PHASE_STORING: u64 = 8;

// The directory's state: I, S or E.
pub const DIRECTORY_I: u64 = 0;

pub const DIRECTORY_S: u64 = 1;

pub const DIRECTORY_E: u64 = 2;

// What a tile waits for: nothing, a load or a store.
pub const WAITS_FOR_NOTHING: u64 = 0;

pub const WAITS_FOR_LOAD: u64 = 1;

pub const WAITS_FOR_STORE: u64 = 2;
