// Writes the flits of a message of each kind, a line each, in lower-case hexadecimal digits: the four of document 01's listing, then one of
// each type with tile 13 and the last line of the address space, then what is refused. tests/model writes the same lines from its own
// reading of the paper.
#![tactic(auto)]

use flits::{ADDRESS_LIMIT, MOST_FLITS};
use layout::Row;
use numbers::limits::{LINE_LENGTH, LINE_WORDS};
use numbers::queues::{FROM_MEMORY, NOC1, NOC2, NOC3, TO_MEMORY};
use numbers::states::{STATE_E, STATE_I, STATE_M, STATE_S};
use numbers::types::{
    DATA_ACK, INV_FWD, INV_FWDACK, LOAD_FWD, LOAD_FWDACK, LOAD_MEM, LOAD_MEM_ACK, LOAD_REQ,
    NO_MESSAGE, STORE_FWD, STORE_FWDACK, STORE_MEM, STORE_MEM_ACK, STORE_REQ, WB_REQ, WBGUARD_REQ,
};
use program_io::Words;
use std::io;
use std::io::{BufWriter, Write};

// The line of 01's listing; the last line that 48 bits can address; a tile that is neither in the first row nor in the first column.
const LISTING_LINE: u64 = 0x80001040;

const LAST_LINE: u64 = 0xFFFFFFFFFFC0;

const TILE: u64 = 13;

const FIRST_TILE: u64 = 0;
// of a message to or from memory
const NO_TILE: u64 = 0;

const LAST_WORD: u64 = LINE_WORDS - 1;
// the flag of an answer, and of an ack
const MISS: u64 = 1;

const WITH_DATA: u64 = 1;

type Data = [u64; LINE_LENGTH];

const NO_DATA: Data = [0; LINE_LENGTH];
// of 01's listing
const LISTED: Data = [7, 0, 0, 0, 0, 0, 0, 0];

const ALL_DIFFERENT: Data = [1, 2, 3, 4, 5, 6, 7, u64::MAX];

// A queue, and a message on it: its type, word, state and flag, each 0 where it has none, and its data. No struct with names: that makes
// eight lines of each in these tables, and the names say no more than this line.
type Message = (u64, [u64; 4], Data);

const LISTING: [Message; 4] = [
    (NOC1, [LOAD_REQ, 0, 0, 0], NO_DATA),
    (TO_MEMORY, [LOAD_MEM, 0, 0, 0], NO_DATA),
    (FROM_MEMORY, [LOAD_MEM_ACK, 0, 0, 0], LISTED),
    (NOC2, [DATA_ACK, 0, STATE_E, MISS], LISTED),
];

const FROM_TILE: [Message; 10] = [
    (NOC1, [LOAD_REQ, LAST_WORD, 0, 0], NO_DATA),
    (NOC1, [STORE_REQ, LAST_WORD, 0, 0], NO_DATA),
    (NOC1, [WBGUARD_REQ, 0, 0, 0], NO_DATA),
    (NOC3, [WB_REQ, 0, 0, 0], ALL_DIFFERENT),
    (NOC3, [LOAD_FWDACK, 0, STATE_I, 0], NO_DATA),
    (NOC3, [LOAD_FWDACK, 0, STATE_S, 0], NO_DATA),
    (NOC3, [LOAD_FWDACK, 0, STATE_S, WITH_DATA], ALL_DIFFERENT),
    (NOC3, [STORE_FWDACK, 0, 0, 0], NO_DATA),
    (NOC3, [STORE_FWDACK, 0, 0, WITH_DATA], ALL_DIFFERENT),
    (NOC3, [INV_FWDACK, 0, 0, 0], NO_DATA),
];

const TO_TILE: [Message; 6] = [
    (NOC2, [LOAD_FWD, 0, 0, 0], NO_DATA),
    (NOC2, [STORE_FWD, 0, 0, 0], NO_DATA),
    (NOC2, [INV_FWD, 0, 0, 0], NO_DATA),
    (NOC2, [DATA_ACK, 0, STATE_S, 0], ALL_DIFFERENT),
    (NOC2, [DATA_ACK, 0, STATE_E, 0], ALL_DIFFERENT),
    (NOC2, [DATA_ACK, 0, STATE_M, MISS], ALL_DIFFERENT),
];

const MEMORY: [Message; 4] = [
    (TO_MEMORY, [LOAD_MEM, 0, 0, 0], NO_DATA),
    (TO_MEMORY, [STORE_MEM, 0, 0, 0], ALL_DIFFERENT),
    (FROM_MEMORY, [LOAD_MEM_ACK, 0, 0, 0], ALL_DIFFERENT),
    (FROM_MEMORY, [STORE_MEM_ACK, 0, 0, 0], NO_DATA),
];

// refused on any line
const REFUSED: [Message; 2] = [
    (NOC1, [NO_MESSAGE, 0, 0, 0], NO_DATA),
    (NOC2, [DATA_ACK, 0, STATE_I, 0], ALL_DIFFERENT),
];

// refused on a line behind the last
const BEHIND_LAST: [Message; 2] = [
    (NOC1, [LOAD_REQ, 0, 0, 0], NO_DATA),
    (NOC1, [WBGUARD_REQ, 0, 0, 0], NO_DATA),
];

// Messages on a line and a tile.
fn show<W: Write>(out: &mut W, line: u64, tile: u64, messages: &[Message]) -> io::Result<()> {
    for message in messages {
        let (queue, [n0, n1, n2, n3], words) = *message;
        let row = Row {
            n0,
            n1,
            n2,
            n3,
            words,
        };
        let mut buffer = [0; MOST_FLITS];
        match message_flits::write_message(&mut buffer, 0, line, queue, tile, row) {
            Ok(flits) => writeln!(out, ">{}", Words(&buffer[..flits]))?,
            Err(refusal) => writeln!(out, "refused {}", u64::from(refusal))?,
        }
    }
    Ok(())
}

fn main(rt: HostRuntime) -> io::Result<()> {
    let mut out = BufWriter::new(rt.alloc(), rt.stdout())?;
    show(&mut out, LISTING_LINE, FIRST_TILE, &LISTING)?;
    show(&mut out, LAST_LINE, TILE, &FROM_TILE)?;
    show(&mut out, LAST_LINE, TILE, &TO_TILE)?;
    show(&mut out, LAST_LINE, NO_TILE, &MEMORY)?;
    show(&mut out, LAST_LINE, TILE, &REFUSED)?;
    show(&mut out, ADDRESS_LIMIT, TILE, &BEHIND_LAST)?;
    out.flush()
}
