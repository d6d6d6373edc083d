// The fields of a bench's message: what its queue and tile say, and what the flit table leaves no choice about.
ghost use Rattle.std.specs.Prelude.{◌≡◌, ◌≤◌};
ghost use Rattle.numbers.specs.Limits.{words_in_line};
ghost use Rattle.message_flits.specs.Fields.{node, tile_node, home_node, memory_node, destination, source, message_tag, word_address, message_address, message_size, message_source, message_miss, message_header, data_count};

use flits::{ADDRESS_LIMIT, Header, Node, TypeRow};
use layout::{BenchQueue, Row};
use numbers::limits::{LINE_LENGTH, LINE_WORDS};
use numbers::ports::{PORT_PROCESSOR, PORT_WEST};
use numbers::queues::{FROM_MEMORY, NOC2, NOC3, TO_MEMORY};

// Tiles in a row of the mesh; bytes of a word; the size that a request for a word has.
const MESH_WIDTH: u64 = 8;

const WORD_BYTES: u64 = 8;

const REQUEST_SIZE: u64 = 4;

// On chip 0; by its own name, as the definition `node`.
fn node(x: u64, y: u64, port: u64) -> Node
    ensures { result ≡ node x y port }
{
    Node {
        chip: 0,
        x,
        y,
        port,
    }
}

fn tile_node(tile: u64) -> Node
    ensures { result ≡ tile_node tile }
{
    node(tile % MESH_WIDTH, tile / MESH_WIDTH, PORT_PROCESSOR)
}

fn home_node() -> Node
    ensures { result ≡ home_node }
{
    node(0, 0, PORT_PROCESSOR)
}

fn memory_node() -> Node
    ensures { result ≡ memory_node }
{
    node(0, 0, PORT_WEST)
}

#[tactic(auto, unfolding(crate::specs::Fields::destination))]
fn destination(on: BenchQueue) -> Node
    ensures { result ≡ destination on.queue on.tile }
{
    match on.queue {
        NOC2 => tile_node(on.tile),
        TO_MEMORY => memory_node(),
        _ => home_node(),
    }
}

#[tactic(auto, unfolding(crate::specs::Fields::source))]
fn source(on: BenchQueue) -> Node
    ensures { result ≡ source on.queue on.tile }
{
    match on.queue {
        NOC2 | TO_MEMORY => home_node(),
        FROM_MEMORY => memory_node(),
        _ => tile_node(on.tile),
    }
}

#[tactic(auto, unfolding(crate::specs::Fields::message_tag))]
fn message_tag(on: BenchQueue) -> u64
    ensures { result ≡ message_tag on.queue on.tile }
{
    if on.queue <= NOC3 { on.tile } else { 0 }
}

#[tactic(auto, unfolding(crate::specs::Fields::word_address))]
fn word_address(line: u64, word: u64) -> u64
    ensures { result ≡ word_address line word }
{
    if line < ADDRESS_LIMIT && word < LINE_WORDS {
        line + WORD_BYTES * word
    } else {
        ADDRESS_LIMIT
    }
}

#[tactic(auto, unfolding(crate::specs::Fields::message_address))]
fn message_address(row: TypeRow, line: u64, word: u64) -> u64
    ensures { result ≡ message_address row line word }
{
    if !row.three {
        0
    } else if row.line {
        line
    } else {
        word_address(line, word)
    }
}

#[tactic(auto, unfolding(crate::specs::Fields::message_size))]
fn message_size(row: TypeRow) -> u64
    ensures { result ≡ message_size row }
{
    if !row.three {
        0
    } else if row.line {
        row.least
    } else {
        REQUEST_SIZE
    }
}

#[tactic(auto, unfolding(crate::specs::Fields::message_source))]
fn message_source(row: TypeRow, on: BenchQueue) -> Node
    ensures { result ≡ message_source row on.queue on.tile }
{
    if row.three {
        source(on)
    } else {
        node(0, 0, PORT_PROCESSOR)
    }
}

#[tactic(auto, unfolding(crate::specs::Fields::message_miss))]
fn message_miss(row: TypeRow, flag: u64) -> u64
    ensures { result ≡ message_miss row flag }
{
    if row.miss == 0 { 0 } else { flag }
}

#[tactic(auto, unfolding(crate::specs::Fields::message_header))]
pub fn message_header(row: TypeRow, line: u64, on: BenchQueue, message: Row) -> Header
    ensures { result ≡ message_header row line on.queue on.tile message }
{
    Header {
        opcode: message.n0,
        tag: message_tag(on),
        to: destination(on),
        state: message.n2,
        miss: message_miss(row, message.n3),
        address54: 0,
        last: row.last,
        address: message_address(row, line, message.n1),
        vector: row.vector,
        icache: 0,
        size: message_size(row),
        from: message_source(row, on),
    }
}

// How many data words the message has.
#[tactic(auto, unfolding(crate::specs::Fields::data_count))]
pub fn data_count(row: TypeRow, flag: u64) -> usize
    ensures count { result ≡ data_count row flag }
    ensures fits { result ≤ words_in_line }
{
    let carries = if row.short == row.long {
        row.long != row.extra()
    } else {
        flag != 0
    };
    if carries { LINE_LENGTH } else { 0 }
}
