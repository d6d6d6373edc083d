// The lines of an answer (01, 'Jobs'), written into a lent buffer: the call's line, then one line for each message that it sent.
ghost use Rattle.std.specs.Prelude.{◌≡◌};
ghost use Rattle.job_rules.specs.Buffers.{AllPlaced};
ghost use Rattle.job_rules.specs.AnswerLines.{answer_lines};

use crate::message_lines::put_messages;
use protocol::Answer;

// The lines of a call: its number and answer, and the messages that it sent, out of the words after it.
pub fn answer_lines(
    buffer: &mut [u8],
    at: usize,
    words: &[u64],
    line: u64,
    number: u64,
    answer: Answer,
) -> usize
    ensures { AllPlaced buffer.old buffer.new at result (answer_lines line number answer words.now) }
{
    let place = listing::call_line(
        buffer,
        at,
        number,
        answer.refusal,
        answer.kind,
        answer.value,
    );
    put_messages(buffer, place, words, line, answer)
}
