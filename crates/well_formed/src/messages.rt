// Is a message the encoding of what it is read as? Of each only what its type leaves open is looked at.
ghost use Rattle.std.specs.Prelude.{◌≡◌, ◌&&◌, ℕ, eqb};
ghost use Rattle.numbers.specs.Queues.{noc1_queue, noc2_queue, noc3_queue, to_memory_queue, from_memory_queue};
ghost use Rattle.layout.specs.Blocks.{row_at};
ghost use Rattle.protocol.specs.Parts.{state_number};
ghost use Rattle.layout.specs.Encode.{flag};
ghost use Rattle.layout.specs.Decode.{is_set, dec_state};
ghost use Rattle.layout.specs.Canonical.{same_row, canon_message};

use crate::{fields, rows};
use layout::places::{MESSAGE_FLAG, MESSAGE_STATE, MESSAGE_TYPE, MESSAGE_WORD, ROW_WORDS};
use numbers::types::{
    DATA_ACK, INV_FWD, LOAD_FWD, LOAD_MEM, LOAD_MEM_ACK, STORE_MEM, STORE_MEM_ACK,
};

// The messages that one queue takes.
pub trait Message {
    // the queue's number
    ghost queue: { ℕ };

    fn is_ok(row: &[u64; ROW_WORDS]) -> bool
        ensures { result ≡ same_row (canon_message queue (row_at row.now 0)) (row_at row.now 0) };
}

pub struct Request;

pub struct Forward;

pub struct Reply;

pub struct ToMemory;

pub struct FromMemory;

impl Message for Request {
    ghost queue = { noc1_queue };

    #[tactic(auto, using(crate::proofs::MessageLaws::request), unfolding(layout::specs::Canonical::canon_message, layout::specs::Blocks::row_at))]
    fn is_ok(row: &[u64; ROW_WORDS]) -> bool {
        fields::request_word_ok(row[MESSAGE_TYPE], row[MESSAGE_WORD]) & rows::clear_behind(row)
    }
}

#[tactic(auto, using(crate::proofs::NumberLaws::zero_left), unfolding(layout::specs::Blocks::row_at))]
fn grant_ok(row: &[u64; ROW_WORDS]) -> bool
    ensures { result ≡ (eqb 0 (row_at row.now 0).n1 && (eqb (state_number (dec_state (row_at row.now 0).n2)) (row_at row.now 0).n2 && eqb (flag (is_set (row_at row.now 0).n3)) (row_at row.now 0).n3)) }
{
    (row[MESSAGE_WORD] == 0)
        & (fields::state_ok(row[MESSAGE_STATE]) & fields::flag_ok(row[MESSAGE_FLAG]))
}

impl Message for Forward {
    ghost queue = { noc2_queue };

    // LOAD_FWD, STORE_FWD and INV_FWD stand one behind the other.
    fn is_ok(row: &[u64; ROW_WORDS]) -> bool {
        match row[MESSAGE_TYPE] {
            LOAD_FWD..=INV_FWD => rows::bare(row),
            DATA_ACK => grant_ok(row),
            _ => false,
        }
    }
}

impl Message for Reply {
    ghost queue = { noc3_queue };

    fn is_ok(row: &[u64; ROW_WORDS]) -> bool {
        fields::reply_numbers_ok(
            row[MESSAGE_TYPE],
            row[MESSAGE_WORD],
            row[MESSAGE_STATE],
            row[MESSAGE_FLAG],
            rows::clear_data(row),
        )
    }
}

impl Message for ToMemory {
    ghost queue = { to_memory_queue };

    fn is_ok(row: &[u64; ROW_WORDS]) -> bool {
        match row[MESSAGE_TYPE] {
            LOAD_MEM => rows::bare(row),
            STORE_MEM => rows::only_data(row),
            _ => false,
        }
    }
}

impl Message for FromMemory {
    ghost queue = { from_memory_queue };

    fn is_ok(row: &[u64; ROW_WORDS]) -> bool {
        match row[MESSAGE_TYPE] {
            LOAD_MEM_ACK => rows::only_data(row),
            STORE_MEM_ACK => rows::bare(row),
            _ => false,
        }
    }
}
