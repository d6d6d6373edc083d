// The lines of a listing (01, 'Jobs'), in its order.
ghost use Rattle.std.specs.Prelude.{◌≡◌, ◌+◌, ◌*◌, ◌≤◌, ◌++◌, length};
ghost use Rattle.lists.specs.Over.{Put, Placed};
ghost use Rattle.listing.specs.Digits.{address_digits, ascii, hex12};
ghost use Rattle.listing.specs.Lines.{flit_bytes, message_fixed, bench_line, call_line, flit_text, flits_text, message_line, end_line, refused_line};

use crate::digits::{ADDRESS_DIGITS, FLIT_DIGITS, Numeral, put_hex};

// ---- how many bytes of each line are not its decimal numbers or flits
// 'bench ', a space, the line address, the newline
const BENCH_FIXED: usize = 6 + 1 + ADDRESS_DIGITS + 1;
// three spaces and the newline
const CALL_FIXED: usize = 4;
// '>' and the newline
const MESSAGE_FIXED: usize = 2;
// 'end ' and the newline
const END_FIXED: usize = 4 + 1;
// 'job refused ', a space, 'at ', the newline
const REFUSED_FIXED: usize = 12 + 1 + 3 + 1;
// a flit, with the space before it
const FLIT_BYTES: usize = 1 + FLIT_DIGITS;

// ---- the first line: tile count and line address

// The line address and the newline.
fn put_address_end(buffer: &mut [u8], at: usize, address: u64) -> usize
    requires { at + (address_digits + 1) ≤ length buffer.old }
    ensures { Put buffer.old buffer.new at result (hex12 address ++ ascii "\n") }
{
    let next = put_hex::<ADDRESS_DIGITS>(buffer, at, address);
    lists::put_byte(buffer, next, b'\n')
}

pub fn bench_line(buffer: &mut [u8], at: usize, count: u64, address: u64) -> usize
    ensures { Placed buffer.old buffer.new at result (bench_line count address) }
{
    let tiles = Numeral::of(count);
    if !lists::room(buffer.len(), at, tiles.count + BENCH_FIXED) {
        return buffer.len() + 1;
    }
    let next = tiles.put_labelled(buffer, at, b"bench ", b' ');
    put_address_end(buffer, next, address)
}

// ---- a call's line: its number, refusal, kind and value

pub fn call_line(
    buffer: &mut [u8],
    at: usize,
    number: u64,
    refusal: u64,
    kind: u64,
    value: u64,
) -> usize
    ensures { Placed buffer.old buffer.new at result (call_line number refusal kind value) }
{
    let number = Numeral::of(number);
    let refusal = Numeral::of(refusal);
    let kind = Numeral::of(kind);
    let value = Numeral::of(value);
    let count = number.count + refusal.count + kind.count + value.count + CALL_FIXED;
    if !lists::room(buffer.len(), at, count) {
        return buffer.len() + 1;
    }
    let next = number.put_then(buffer, at, b' ');
    let next = refusal.put_then(buffer, next, b' ');
    let next = kind.put_then(buffer, next, b' ');
    value.put_then(buffer, next, b'\n')
}

// ---- the line of a message that a call sent

fn put_flit(buffer: &mut [u8], at: usize, flit: u64) -> usize
    requires { at + flit_bytes ≤ length buffer.old }
    ensures { Put buffer.old buffer.new at result (flit_text flit) }
{
    let next = lists::put_byte(buffer, at, b' ');
    put_hex::<FLIT_DIGITS>(buffer, next, flit)
}

fn put_flits(buffer: &mut [u8], at: usize, flits: &[u64]) -> usize
    requires { at + flit_bytes * length flits.now ≤ length buffer.old }
    ensures { Put buffer.old buffer.new at result (flits_text flits.now) }
{
    let mut next = at;
    for flit in flits {
        next = put_flit(buffer, next, *flit);
    }
    next
}

fn put_message(buffer: &mut [u8], at: usize, flits: &[u64]) -> usize
    requires { at + (flit_bytes * length flits.now + message_fixed) ≤ length buffer.old }
    ensures { Put buffer.old buffer.new at result (message_line flits.now) }
{
    let next = lists::put_byte(buffer, at, b'>');
    let next = put_flits(buffer, next, flits);
    lists::put_byte(buffer, next, b'\n')
}

pub fn message_line(buffer: &mut [u8], at: usize, flits: &[u64]) -> usize
    ensures { Placed buffer.old buffer.new at result (message_line flits.now) }
{
    if flits.len() > buffer.len() / FLIT_BYTES
        || !lists::room(buffer.len(), at, flits.len() * FLIT_BYTES + MESSAGE_FIXED)
    {
        return buffer.len() + 1;
    }
    put_message(buffer, at, flits)
}

// ---- the last line: the number of calls

pub fn end_line(buffer: &mut [u8], at: usize, calls: u64) -> usize
    ensures { Placed buffer.old buffer.new at result (end_line calls) }
{
    let calls = Numeral::of(calls);
    if !lists::room(buffer.len(), at, calls.count + END_FIXED) {
        return buffer.len() + 1;
    }
    calls.put_labelled(buffer, at, b"end ", b'\n')
}

// ---- the only line of a refused job

pub fn refused_line(buffer: &mut [u8], at: usize, number: u64, offset: u64) -> usize
    ensures { Placed buffer.old buffer.new at result (refused_line number offset) }
{
    let number = Numeral::of(number);
    let offset = Numeral::of(offset);
    if !lists::room(
        buffer.len(),
        at,
        number.count + offset.count + REFUSED_FIXED,
    ) {
        return buffer.len() + 1;
    }
    let next = number.put_labelled(buffer, at, b"job refused ", b' ');
    offset.put_labelled(buffer, next, b"at ", b'\n')
}
