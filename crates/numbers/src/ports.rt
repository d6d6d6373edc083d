// Ports of a node (01: 'Ports are 0 processor, 2 west, 3 south, 4 east, 5 north'). Numbers and no enum, as the types are: flits hold them,
// and a message with any other port is refused.
pub const PORT_PROCESSOR: u64 = 0;

pub const PORT_WEST: u64 = 2;

pub const PORT_SOUTH: u64 = 3;

pub const PORT_EAST: u64 = 4;

pub const PORT_NORTH: u64 = 5;
