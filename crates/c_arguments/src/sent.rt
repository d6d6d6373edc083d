// The flits of a message that a call sent, out of the words that it left. `sent` and `tiles` are the last two numbers of its answer.
ghost use Rattle.std.specs.Prelude.{◌≡◌, length};
ghost use Rattle.flits.specs.Writing.{told_written};
ghost use Rattle.messages.specs.Rows.{sent_message};
ghost use Rattle.c_arguments.specs.Arguments.{sent_written, sent_buffer};

use numbers::refusals::Refusal;

// Those of the message of this index, from 0, at a place of the buffer, of the line with this address.
pub fn write_sent(
    words: &[u64],
    sent: u64,
    tiles: u64,
    index: u64,
    line: u64,
    buffer: &mut [u64],
    at: usize,
) -> Result<usize, Refusal>
    ensures written { told_written result ≡ sent_written line (sent_message words.now sent tiles index) (length buffer.old) at }
    ensures after { buffer.new ≡ sent_buffer line (sent_message words.now sent tiles index) buffer.old at }
{
    let message = messages::message(words, sent, tiles, index);
    message_flits::write_message(buffer, at, line, message.queue, message.tile, message.row)
}
