// Tests of single numbers of a bench's blocks: below a bound, and what a type or a waiting access asks of the numbers beside it.
// Comparisons are joined by `&` where they cost less than a branch. `0 < count` stands where a tile's number is read as its remainder by
// the count: at no tiles the remainder is the number itself, and none is below 0.
ghost use Rattle.std.specs.Prelude.{◌≡◌, ◌&&◌, ◌%◌, ◌^◌, ◌<◌, eqb};
ghost use Rattle.protocol.specs.Parts.{state_number};
ghost use Rattle.layout.specs.Encode.{flag, directory_number, holders};
ghost use Rattle.layout.specs.Decode.{is_set, dec_state, dec_directory};
ghost use Rattle.well_formed.specs.Fields.{request_word_ok, reply_numbers_ok, waiting_numbers_ok};

use layout::codes::{
    DIRECTORY_E, DIRECTORY_I, DIRECTORY_S, WAITS_FOR_LOAD, WAITS_FOR_NOTHING, WAITS_FOR_STORE,
};
use numbers::limits::LINE_WORDS;
use numbers::states::{STATE_E, STATE_I, STATE_M, STATE_S};
use numbers::types::{
    INV_FWDACK, LOAD_FWDACK, LOAD_REQ, STORE_FWDACK, STORE_REQ, WB_REQ, WBGUARD_REQ,
};

#[tactic(auto, using(crate::proofs::NumberLaws::mod_below))]
pub fn below(number: u64, count: u64) -> bool
    requires { 0 < count }
    ensures { result ≡ eqb (number % count) number }
{
    number < count
}

pub fn in_mask(mask: u64, count: u64) -> bool
    ensures { result ≡ eqb (mask % 2 ^ count) mask }
{
    bits::low(mask, count) == mask
}

#[tactic(auto, using(crate::proofs::NumberLaws::flag_below))]
pub fn flag_ok(number: u64) -> bool
    ensures { result ≡ eqb (flag (is_set number)) number }
{
    number <= 1
}

// S, E or M
#[tactic(auto, unfolding(protocol::specs::Parts::state_number, layout::specs::Decode::dec_state))]
pub fn state_ok(number: u64) -> bool
    ensures { result ≡ eqb (state_number (dec_state number)) number }
{
    matches!(number, STATE_S | STATE_E | STATE_M)
}

#[tactic(auto, unfolding(crate::specs::Fields::request_word_ok))]
pub fn request_word_ok(message: u64, word: u64) -> bool
    ensures { result ≡ request_word_ok message word }
{
    match message {
        LOAD_REQ | STORE_REQ => word < LINE_WORDS,
        WBGUARD_REQ => word == 0,
        _ => false,
    }
}

// The numbers between a reply's type and its data, and whether these are all 0. LOAD_FWDACK is in I or S, and in S alone it has data.
#[tactic(auto, unfolding(crate::specs::Fields::reply_numbers_ok))]
pub fn reply_numbers_ok(message: u64, word: u64, state: u64, flag: u64, clear: bool) -> bool
    ensures { result ≡ reply_numbers_ok message word state flag clear }
{
    let filled = (flag == 1) | clear;
    let none = (word | state | flag) == 0;
    match message {
        WB_REQ => none,
        LOAD_FWDACK => (word == 0) & (state <= STATE_S) & (flag <= state) & filled,
        STORE_FWDACK => (word == 0) & (state == STATE_I) & (flag <= 1) & filled,
        INV_FWDACK => none & filled,
        _ => false,
    }
}

// What a tile waits for, with its word and value.
#[tactic(auto, unfolding(crate::specs::Fields::waiting_numbers_ok))]
pub fn waiting_numbers_ok(waits: u64, word: u64, value: u64) -> bool
    ensures { result ≡ waiting_numbers_ok waits word value }
{
    match waits {
        WAITS_FOR_NOTHING => (word | value) == 0,
        WAITS_FOR_LOAD => (word < LINE_WORDS) & (value == 0),
        WAITS_FOR_STORE => word < LINE_WORDS,
        _ => false,
    }
}

// A directory, with its sharers or owner.
#[tactic(auto, unfolding(layout::specs::Encode::directory_number, layout::specs::Encode::holders, layout::specs::Decode::dec_directory))]
pub fn directory_ok(directory: u64, number: u64, count: u64) -> bool
    requires { 0 < count }
    ensures { result ≡ (eqb (directory_number (dec_directory count directory number)) directory && eqb (holders (dec_directory count directory number)) number) }
{
    match directory {
        DIRECTORY_I => number == 0,
        DIRECTORY_S => in_mask(number, count),
        DIRECTORY_E => below(number, count),
        _ => false,
    }
}
