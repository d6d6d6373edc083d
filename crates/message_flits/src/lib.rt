// Document 01, 'Flits of a bench': the flits of a message on a queue of the bench, written by the flit part's promise alone.
// - fields (specs/Fields): the fields of a bench's message
#![tactic(auto)]

mod fields;

ghost use Rattle.std.specs.Prelude.{◌≡◌, length};
ghost use Rattle.flits.specs.Writing.{told_written, written_of, buffer_of};
ghost use Rattle.message_flits.specs.Fields.{message_fields, message_data};

use layout::{BenchQueue, Row};
use numbers::refusals::Refusal;

// Writes the flits of a message on a queue of the bench, by the queue's number and tile, at a place of the buffer, and says how many they
// are. Only its own flits change; a refusal changes none.
#[tactic(auto, unfolding(crate::specs::Fields::message_fields, crate::specs::Fields::message_data))]
pub fn write_message(
    buffer: &mut [u64],
    at: usize,
    line: u64,
    queue: u64,
    tile: u64,
    message: Row,
) -> Result<usize, Refusal>
    ensures { (told_written result ≡ written_of (message_fields line queue tile message) (length (message_data message)) (length buffer.old) at) × (buffer.new ≡ buffer_of (message_fields line queue tile message) (message_data message) buffer.old at) }
{
    let row = flits::type_row(message.n0);
    let header = fields::message_header(row, line, BenchQueue { queue, tile }, message);
    let count = fields::data_count(row, message.n3);
    flits::write(header, &message.words[..count], buffer, at)
}
