// Where each field stands in its flit: the place of its lowest bit, its width in bits, and the least number that is too wide for it
// (01, 'Flit words', in its order). Place and width stay two numbers, as the definitions have them: must-fail/place_of_the_tag changes one
// alone.

// ---- flit 1; a node stands in flit 3 at the same places

// chip 63..50
pub const CHIP: u64 = 50;

pub const CHIP_BITS: u64 = 14;

pub const CHIP_LIMIT: u64 = 1 << CHIP_BITS;

// x 49..42
pub const X: u64 = 42;

pub const X_BITS: u64 = 8;

pub const X_LIMIT: u64 = 1 << X_BITS;

// y 41..34
pub const Y: u64 = 34;

pub const Y_BITS: u64 = 8;

pub const Y_LIMIT: u64 = 1 << Y_BITS;

// port 33..30
pub const PORT: u64 = 30;

pub const PORT_BITS: u64 = 4;

// length 29..22
pub const LENGTH: u64 = 22;

pub const LENGTH_BITS: u64 = 8;

// type 21..14
pub const OPCODE: u64 = 14;

pub const OPCODE_BITS: u64 = 8;

// tag 13..6
pub const TAG: u64 = 6;

pub const TAG_BITS: u64 = 8;

pub const TAG_LIMIT: u64 = 1 << TAG_BITS;

// options 5..0
pub const OPTIONS: u64 = 0;

pub const OPTIONS_BITS: u64 = 6;

// ---- the options

// state 5..4
pub const STATE: u64 = 4;

pub const STATE_BITS: u64 = 2;

pub const STATE_LIMIT: u64 = 1 << STATE_BITS;

// L2 miss 3
pub const MISS: u64 = 3;

pub const MISS_BITS: u64 = 1;

pub const MISS_LIMIT: u64 = 1 << MISS_BITS;

// address_5_4 2..1
pub const ADDRESS54: u64 = 1;

pub const ADDRESS54_BITS: u64 = 2;

pub const ADDRESS54_LIMIT: u64 = 1 << ADDRESS54_BITS;

// last 0
pub const LAST: u64 = 0;

pub const LAST_BITS: u64 = 1;

pub const LAST_LIMIT: u64 = 1 << LAST_BITS;

// ---- flit 2

// address 63..16
pub const ADDRESS: u64 = 16;

pub const ADDRESS_BITS: u64 = 48;

pub const ADDRESS_LIMIT: u64 = 1 << ADDRESS_BITS;

// sub-line vector 15..12
pub const VECTOR: u64 = 12;

pub const VECTOR_BITS: u64 = 4;

pub const VECTOR_LIMIT: u64 = 1 << VECTOR_BITS;

// icache bit 11
pub const ICACHE: u64 = 11;

pub const ICACHE_BITS: u64 = 1;

pub const ICACHE_LIMIT: u64 = 1 << ICACHE_BITS;

// size 10..8
pub const SIZE: u64 = 8;

pub const SIZE_BITS: u64 = 3;

pub const SIZE_LIMIT: u64 = 1 << SIZE_BITS;

// 7..0 reserved
pub const RESERVED2: u64 = 0;

pub const RESERVED2_BITS: u64 = 8;

// ---- flit 3

// 29..0 reserved
pub const RESERVED3: u64 = 0;

pub const RESERVED3_BITS: u64 = 30;
