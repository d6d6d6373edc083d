// Message types (01, 'Flit words': the table's first column). Numbers and no enum: lent words and flits hold them, and there a call has an
// answer for every number (docs/PROMISES.md, 2 and 4).
// no type of the table: a free place of a queue, or no message at all
pub const NO_MESSAGE: u64 = 0;

pub const LOAD_REQ: u64 = 31;

pub const STORE_REQ: u64 = 2;

pub const WB_REQ: u64 = 12;

pub const STORE_MEM: u64 = 20;

pub const LOAD_MEM: u64 = 19;

pub const WBGUARD_REQ: u64 = 13;

pub const LOAD_FWD: u64 = 16;

pub const STORE_FWD: u64 = 17;

pub const INV_FWD: u64 = 18;

pub const LOAD_FWDACK: u64 = 21;

pub const STORE_FWDACK: u64 = 22;

pub const INV_FWDACK: u64 = 23;

pub const LOAD_MEM_ACK: u64 = 24;

pub const STORE_MEM_ACK: u64 = 25;

pub const NODATA_ACK: u64 = 28;

pub const DATA_ACK: u64 = 29;
