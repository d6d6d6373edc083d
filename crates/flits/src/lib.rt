// Messages in flits, the flit part's only door: the front message of lent flits is read, a message is written at a place of a lent buffer,
// a recording is walked. What each call promises is an equation with a definition of specs/, for every input; no call requires anything.
// specs/ and proofs/ pass on what the rooms above name of flit_rules; read there specs/Words, Table, Rules, Reading, Writing, RoundTrips.
// Files here: rounds (read and written again, written and read back), walker (and specs/Walk).
#![tactic(auto)]

mod rounds;
pub mod walker;

pub use flit_fields::places::ADDRESS_LIMIT;
pub use flit_reader::{data_words, data_words_at, read, read_at};
pub use flit_rules::{EXTRA_FLITS, FIELDS, Header, MOST_FLITS, Node, Read, TypeRow};
pub use flit_table::{network, type_row};
pub use flit_writer::write;
pub use rounds::{copy, echo};
