// What 01 says of messages in flits ('Flit words', 'Refusal numbers'): definitions, and the structs that they speak of with their
// conversions.
// Read specs/Words (fields and their places), Table (01's table of types), Rules (what a message must keep), Reading, Writing, RoundTrips
// (the calls that do both, and the statements that reading and writing are each other's inverse). specs/Columns is a device of the proofs.
// specs/Examples has 01's own messages, which proofs/Examples computes. The code is in flit_fields, flit_table, flit_checks, flit_reader
// and flit_writer; `flits` passes all of it on, and is the only flit crate that the rooms above name.
#![tactic(auto)]

ghost use Rattle.std.specs.Prelude.{◌≡◌};
ghost use Rattle.flit_rules.specs.Table.{header_extra};
ghost use Rattle.flit_rules.specs.Words.{words_of_header, header_of_words};

// header flits behind the first, of a type with three
pub const EXTRA_FLITS: u64 = 2;

// flits of a message, at most: the header flits and the words of a line
pub const MOST_FLITS: usize = 11;

// the fields of a message, as words
pub const FIELDS: usize = 18;

// the network of a type that is not in the table; no Option: the definition row_of gives every number a row
pub const NO_NETWORK: u64 = 0;

// A place on the chip's networks: 01's chip, x, y, port.
#[derive(Clone, Copy, Debug, PartialEq, Eq)]
pub struct Node {
    pub chip: u64,
    pub x: u64,
    pub y: u64,
    pub port: u64,
}

// The fields of a message. `opcode` is 01's type, `address54` its address_5_4, `to` the destination, `from` the source.
#[derive(Clone, Copy, Debug, PartialEq, Eq)]
pub struct Header {
    pub opcode: u64,
    pub tag: u64,
    pub to: Node,
    pub state: u64,
    pub miss: u64,
    pub address54: u64,
    pub last: u64,
    pub address: u64,
    pub vector: u64,
    pub icache: u64,
    pub size: u64,
    pub from: Node,
}

// A message's fields out of words in the order of `Header`.
impl From<[u64; FIELDS]> for Header {
    ghost from_gives = { λ words header. header ≡ header_of_words words };

    fn from(words: [u64; FIELDS]) -> Header {
        let [
            opcode,
            tag,
            to_chip,
            to_x,
            to_y,
            to_port,
            state,
            miss,
            address54,
            last,
            address,
            vector,
            icache,
            size,
            from_chip,
            from_x,
            from_y,
            from_port,
        ] = words;
        Header {
            opcode,
            tag,
            to: Node {
                chip: to_chip,
                x: to_x,
                y: to_y,
                port: to_port,
            },
            state,
            miss,
            address54,
            last,
            address,
            vector,
            icache,
            size,
            from: Node {
                chip: from_chip,
                x: from_x,
                y: from_y,
                port: from_port,
            },
        }
    }
}

// .. and the words of its fields.
impl From<Header> for [u64; FIELDS] {
    ghost from_gives = { λ header words. words ≡ words_of_header header };

    fn from(h: Header) -> [u64; FIELDS] {
        [
            h.opcode,
            h.tag,
            h.to.chip,
            h.to.x,
            h.to.y,
            h.to.port,
            h.state,
            h.miss,
            h.address54,
            h.last,
            h.address,
            h.vector,
            h.icache,
            h.size,
            h.from.chip,
            h.from.x,
            h.from.y,
            h.from.port,
        ]
    }
}

// What the table allows a type.
#[derive(Clone, Copy)]
pub struct TypeRow {
    // 1 to 3, or NO_NETWORK
    pub network: u64,
    // three header flits, or one
    pub three: bool,
    // the lengths
    pub short: u64,
    pub long: u64,
    // the sizes
    pub least: u64,
    pub most: u64,
    pub vector: u64,
    // the largest icache bit
    pub icache: u64,
    // the low six bits of the address are 0
    pub line: bool,
    // options are not reserved
    pub options: bool,
    // the least state without data and with data, and the largest
    pub low: u64,
    pub full: u64,
    pub high: u64,
    // the largest
    pub miss: u64,
    pub address54: u64,
    // what last is
    pub last: u64,
}

impl TypeRow {
    // The header flits behind the first.
    pub fn extra(self) -> u64
        ensures { result ≡ header_extra self }
    {
        if self.three { EXTRA_FLITS } else { 0 }
    }
}

// The front message of lent flits: its fields, the flits used and the place where the data start.
#[derive(Clone, Copy, Debug, PartialEq, Eq)]
pub struct Read {
    pub header: Header,
    pub used: usize,
    pub start: usize,
}
