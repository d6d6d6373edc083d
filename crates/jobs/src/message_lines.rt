// The lines of the messages that a call sent (01, 'Jobs'), written into a lent buffer.
ghost use Rattle.std.specs.Prelude.{◌≡◌};
ghost use Rattle.lists.specs.Over.{Placed};
ghost use Rattle.messages.specs.Queues.{sent_queues};
ghost use Rattle.job_rules.specs.Buffers.{AllPlaced};
ghost use Rattle.job_rules.specs.AnswerLines.{sent_line, sent_lines};

use flits::MOST_FLITS;
use messages::Sent;
use protocol::Answer;

fn put_sent(buffer: &mut [u8], at: usize, line: u64, message: Sent) -> usize
    ensures { Placed buffer.old buffer.new at result (sent_line line message) }
{
    let mut flits = [0u64; MOST_FLITS];
    let written = message_flits::write_message(
        &mut flits,
        0,
        line,
        message.queue,
        message.tile,
        message.row,
    );
    listing::message_line(buffer, at, &flits[..written.unwrap_or(0)])
}

// The lines of all messages of a call with this answer, out of the words after it, in the order of sending.
pub fn put_messages(buffer: &mut [u8], at: usize, words: &[u64], line: u64, answer: Answer) -> usize
    ensures { AllPlaced buffer.old buffer.new at result (sent_lines line words.now (sent_queues answer.sent answer.tiles)) }
{
    let mut place = at;
    for index in 0..messages::count(answer.sent, answer.tiles) {
        let message = messages::message(words, answer.sent, answer.tiles, index);
        place = put_sent(buffer, place, line, message);
    }
    place
}
