// States of a line (01: 'States I=0, S=1, E=2, M=3'). Numbers and no enum, as the types are: lent words and flits hold them.
pub const STATE_I: u64 = 0;

pub const STATE_S: u64 = 1;

pub const STATE_E: u64 = 2;

pub const STATE_M: u64 = 3;
