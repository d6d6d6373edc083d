// A message written from lent fields.
ghost use Rattle.std.specs.Prelude.{◌≡◌, length};
ghost use Rattle.flits.specs.Writing.{told_written};
ghost use Rattle.c_arguments.specs.Arguments.{written_from, buffer_from};

use crate::fields::fields_from;
use flits::FIELDS;
use numbers::refusals::Refusal;

// Writes a message with its data words at a place of the buffer.
#[tactic(auto, unfolding(crate::specs::Arguments::written_from, crate::specs::Arguments::buffer_from))]
pub fn write_from(
    buffer: &mut [u64],
    at: usize,
    fields: &[u64],
    words: &[u64],
) -> Result<usize, Refusal>
    ensures written { told_written result ≡ written_from fields.now (length words.now) (length buffer.old) at }
    ensures after { buffer.new ≡ buffer_from fields.now words.now buffer.old at }
{
    let Ok(fields) = <&[u64; FIELDS]>::try_from(fields) else {
        return Err(Refusal::Malformed);
    };
    flits::write(fields_from(fields), words, buffer, at)
}
