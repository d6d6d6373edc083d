// Reads cases from standard input, a line each, and writes what the calls answer. The first byte of a line says which call, the numbers
// after it are in hexadecimal:
//     r FLIT..                                      reads the front message and its data
//     w FIELD.. (18) ROOM PLACE WORD..              writes a message into a buffer of ROOM flits, at most 16, all EEEEEEEEEEEEEEEE
//     k FLIT..                                      walks a recording
// Any other line is a remark.
#![tactic(auto)]

use flits::walker::Walked;
use flits::{FIELDS, Header, Node};
use program_io::{Case, Cases, Words};
use std::io::{BufWriter, Write};
use std::{fmt, io};

const MOST_ROOM: usize = 16;
// what stands in a buffer before a message is written
const UNWRITTEN: u64 = 0xEEEE_EEEE_EEEE_EEEE;

// what is printed of a message that is refused
const NOTHING_READ: &str = "used 0 start 0 type 0 tag 0 to 0 0 0 0 options 0 0 0 0 \
     address 0 vector 0 icache 0 size 0 from 0 0 0 0";

const HEXADECIMAL: u64 = 16;

const INPUT_BYTES: usize = 65536;

// A node's fields.
#[derive(Clone, Copy)]
struct NodeFields(Node);

impl fmt::Display for NodeFields {
    fn fmt<W: fmt::Write>(&self, f: &mut fmt::Formatter<W>) -> fmt::Result {
        let Node { chip, x, y, port } = self.0;
        write!(f, "{chip} {x} {y} {port}")
    }
}

// A header's fields with their names.
#[derive(Clone, Copy)]
struct HeaderFields(Header);

impl fmt::Display for HeaderFields {
    fn fmt<W: fmt::Write>(&self, f: &mut fmt::Formatter<W>) -> fmt::Result {
        let h = self.0;
        write!(f, "type {} tag {} to {}", h.opcode, h.tag, NodeFields(h.to))?;
        write!(
            f,
            " options {} {} {} {}",
            h.state, h.miss, h.address54, h.last
        )?;
        write!(
            f,
            " address {:x} vector {} icache {}",
            h.address, h.vector, h.icache
        )?;
        write!(f, " size {} from {}", h.size, NodeFields(h.from))
    }
}

fn show_read<W: Write>(out: &mut W, flits: &[u64]) -> io::Result<()> {
    match flits::read(flits) {
        Ok(read) => write!(
            out,
            "read 0 used {} start {} {}",
            read.used,
            read.start,
            HeaderFields(read.header)
        )?,
        Err(refusal) => write!(out, "read {} {NOTHING_READ}", u64::from(refusal))?,
    }
    writeln!(out, " data{}", Words(flits::data_words(flits)))
}

fn show_walk<W: Write>(out: &mut W, flits: &[u64]) -> io::Result<()> {
    let Walked {
        messages,
        at,
        refusal,
    } = flits::walker::walk(flits);
    writeln!(
        out,
        "walk messages {messages} at {at} refusal {}",
        u64::from(refusal)
    )
}

fn show_write<W: Write>(out: &mut W, numbers: &[u64]) -> io::Result<()> {
    let Some((fields, rest)) = numbers.split_first_chunk::<FIELDS>() else {
        return Ok(());
    };
    let Some((&[room, place], words)) = rest.split_first_chunk::<2>() else {
        return Ok(());
    };
    let header = Header::from(*fields);
    let mut buffer = [UNWRITTEN; MOST_ROOM];
    let Some(buffer) = buffer.get_mut(..room as usize) else {
        return Ok(());
    };
    match flits::write(header, words, buffer, place as usize) {
        Ok(flits) => write!(out, "write 0 flits {flits}")?,
        Err(refusal) => write!(out, "write {} flits 0", u64::from(refusal))?,
    }
    writeln!(out, " buffer{}", Words(buffer))
}

fn run<W: Write>(out: &mut W, case: Case, numbers: &mut Vec<u64>) -> io::Result<()> {
    let Some(command @ (b'r' | b'w' | b'k')) = case.command else {
        return Ok(());
    };
    case.numbers(numbers)?;
    match command {
        b'r' => show_read(out, numbers.as_slice()),
        b'w' => show_write(out, numbers.as_slice()),
        _ => show_walk(out, numbers.as_slice()),
    }
}

fn main(rt: HostRuntime) -> io::Result<()> {
    let mut buffer = [0; INPUT_BYTES];
    let input = program_io::read_full(&mut rt.stdin(), &mut buffer)?;
    let mut numbers = Vec::new(rt.alloc());
    let mut out = BufWriter::new(rt.alloc(), rt.stdout())?;
    for case in Cases::new(input, HEXADECIMAL) {
        run(&mut out, case, &mut numbers)?;
    }
    out.flush()
}
