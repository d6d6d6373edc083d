// The lines of a listing (01, 'Jobs'), written into a lent buffer at a place. Each call answers the next place. Where a line does not fit
// from the place to the buffer's end, nothing is written, and the answer is the buffer's length and 1: from there nothing fits, so of
// several calls one after the other only the last answer need be looked at. It is a number, not an Option: the C interface reports it.
// Buffer and place stay two arguments, since C lends them so, and refusals and kinds numbers: the definitions of the lines are of any
// number. Each function tests for room itself: in a helper that takes the writing as a closure, each closure would need a contract of its
// own. In reading order:
// - digits (specs/Digits): numbers in decimal and hexadecimal
// - lines (specs/Lines): a line of each kind
// proofs/Examples has 01's listing, byte for byte.
#![tactic(auto)]

mod digits;
mod lines;

pub use digits::{put_decimal, put_hex12, put_hex16};
pub use lines::{bench_line, call_line, end_line, message_line, refused_line};
