// Prints 01's listing line by line, then numbers at the ends of their ranges, then what a buffer with too little room holds.
use numbers::kinds::Kind;
use numbers::limits::{MOST_JOB_BYTES, MOST_TILES};
use numbers::refusals::Refusal;
use std::io;
use std::io::Write;

// ---- 01's listing
// a bench of one tile with this line, whose first word is 7
const ONE_TILE: u64 = 1;

const LISTING_LINE: u64 = 0x80001040;

const WORD: u64 = 7;
// the first flits of its messages, and the second flits of the requests
const LOAD_REQ_1: u64 = 0x87C000;

const LOAD_REQ_2: u64 = 0x0000800010400400;

const LOAD_MEM_1: u64 = 0x8084C000;

const LOAD_MEM_2: u64 = 0x0000800010400700;

const LOAD_MEM_ACK_1: u64 = 0x02060000;

const DATA_ACK_1: u64 = 0x02074028;

// ---- ends of ranges
// the least number of 20 digits
const TWENTY_DIGITS: u64 = 10000000000000000000;

const EVERY_DIGIT: u64 = 0x0123456789ABCDEF;
// an address of twelve digits, and the last line
const TWELVE_DIGITS: u64 = 0xFEDCBA987640;

const LAST_LINE: u64 = 0xFFFFFFFFFFC0;

// ---- a buffer that holds 'end 12345' and its newline
const TIGHT_ROOM: usize = 10;

const FITS: u64 = 12345;

const DOES_NOT_FIT: u64 = 123456;

// ---- room for 01's listing, for numbers, for one line
const LISTING_ROOM: usize = 1024;

const NUMBERS_ROOM: usize = 512;

const LINE_ROOM: usize = 64;

// of an accepted call
const NO_REFUSAL: u64 = 0;

// Of each message, the line of the call that sent it and the message's own.
fn paper<W: Write>(out: &mut W) -> io::Result<()> {
    let messages: [&[u64]; 4] = [
        &[LOAD_REQ_1, LOAD_REQ_2, 0],
        &[LOAD_MEM_1, LOAD_MEM_2, 0],
        &[LOAD_MEM_ACK_1, WORD, 0, 0, 0, 0, 0, 0, 0],
        &[DATA_ACK_1, WORD, 0, 0, 0, 0, 0, 0, 0],
    ];
    let mut buffer = [0; LISTING_ROOM];
    let mut place = listing::bench_line(&mut buffer, 0, ONE_TILE, LISTING_LINE);
    for (number, flits) in (1..=4).zip(messages) {
        place = listing::call_line(
            &mut buffer,
            place,
            number,
            NO_REFUSAL,
            u64::from(Kind::Sent),
            0,
        );
        place = listing::message_line(&mut buffer, place, flits);
    }
    place = listing::call_line(
        &mut buffer,
        place,
        5,
        NO_REFUSAL,
        u64::from(Kind::Loaded),
        WORD,
    );
    place = listing::end_line(&mut buffer, place, 5);
    program_io::print_fitted(out, &buffer, place)
}

// An empty message's line.
fn newline(buffer: &mut [u8], place: usize) -> usize {
    listing::message_line(buffer, place, &[])
}

fn decimals<W: Write>(out: &mut W) -> io::Result<()> {
    let mut buffer = [0; NUMBERS_ROOM];
    let mut place = 0;
    for number in [0, 9, 10, u64::MAX] {
        place = listing::put_decimal(&mut buffer, place, number);
        place = newline(&mut buffer, place);
    }
    program_io::print_fitted(out, &buffer, place)
}

fn hexadecimal<W: Write>(out: &mut W) -> io::Result<()> {
    let mut buffer = [0; NUMBERS_ROOM];
    let mut place = 0;
    for number in [EVERY_DIGIT, u64::MAX] {
        place = listing::put_hex16(&mut buffer, place, number);
        place = newline(&mut buffer, place);
    }
    place = listing::put_hex12(&mut buffer, place, TWELVE_DIGITS);
    place = newline(&mut buffer, place);
    program_io::print_fitted(out, &buffer, place)
}

// Lines with numbers at the ends of their ranges.
fn lines<W: Write>(out: &mut W) -> io::Result<()> {
    let mut buffer = [0; NUMBERS_ROOM];
    let no_room = u64::from(Refusal::NoRoom);
    let loaded = u64::from(Kind::Loaded);
    let place = listing::call_line(&mut buffer, 0, 100, no_room, loaded, TWENTY_DIGITS);
    let too_long = u64::from(Refusal::JobTooLong);
    let place = listing::refused_line(&mut buffer, place, too_long, MOST_JOB_BYTES as u64);
    let place = listing::refused_line(&mut buffer, place, u64::from(Refusal::JobPlace), 0);
    let place = listing::bench_line(&mut buffer, place, MOST_TILES, LAST_LINE);
    program_io::print_fitted(out, &buffer, place)
}

// Ten bytes hold 'end 12345' and its newline; 'end 123456' does not fit, and the dots stay.
fn tight<W: Write>(out: &mut W) -> io::Result<()> {
    let mut full = [b'.'; TIGHT_ROOM];
    let place = listing::end_line(&mut full, 0, FITS);
    program_io::print_fitted(out, &full, place)?;
    let mut dots = [b'.'; TIGHT_ROOM];
    let behind = listing::end_line(&mut dots, 0, DOES_NOT_FIT);
    out.write_all(&dots)?;
    let still_behind = listing::put_decimal(&mut dots, behind, 1);
    out.write_all(&dots)?;
    let mut buffer = [0; LINE_ROOM];
    let place = listing::call_line(&mut buffer, 0, behind as u64, still_behind as u64, 0, 0);
    program_io::print_fitted(out, &buffer, place)
}

pub fn all<W: Write>(out: &mut W) -> io::Result<()> {
    paper(out)?;
    decimals(out)?;
    hexadecimal(out)?;
    lines(out)?;
    tight(out)
}
