// Is a queue the encoding of what it is read as?
ghost use Rattle.std.specs.Prelude.{◌≡◌, ◌+◌, ◌≤◌, length};
ghost use Rattle.layout.specs.Places.{queue_size};
ghost use Rattle.well_formed.specs.Blocks.{queue_ok};

use crate::messages::Message;
use crate::rows;
use layout::places::{MESSAGE_TYPE, SECOND};
use numbers::types::NO_MESSAGE;

// The kind of message is a type, so each queue's test is compiled apart: by the queue's number it would be a jump, and a bench of one tile
// is then tested a third slower.
pub fn queue_ok<M: Message>(words: &[u64], at: usize) -> bool
    requires { at + queue_size ≤ length words.now }
    ensures { result ≡ queue_ok M.queue words.now at }
{
    let first = rows::row(words, at);
    let second = rows::row(words, at + SECOND);
    if first[MESSAGE_TYPE] == NO_MESSAGE {
        rows::no_messages(words, at)
    } else if second[MESSAGE_TYPE] == NO_MESSAGE {
        M::is_ok(first) & rows::no_message(second)
    } else {
        M::is_ok(first) & M::is_ok(second)
    }
}
