// A start whose memory words are lent.
ghost use Rattle.std.specs.Prelude.{◌≡◌};
ghost use Rattle.protocol.specs.Answers.{answer_of};
ghost use Rattle.calls.specs.Answers.{told};
ghost use Rattle.calls.specs.Calls.{words_started};
ghost use Rattle.c_arguments.specs.Arguments.{start_from};

use calls::Answer;
use numbers::limits::LINE_LENGTH;
use numbers::refusals::Refusal;

// A fresh bench of so many tiles, with the eight memory words.
#[tactic(auto, unfolding(crate::specs::Arguments::start_from, protocol::specs::Answers::answer_of, calls::specs::Calls::words_started))]
pub fn start_from(words: &mut [u64], count: u64, memory: &[u64]) -> Answer
    ensures answer { told result ≡ answer_of (start_from words.old count memory.now) }
    ensures after { words.new ≡ words_started words.old count (start_from words.old count memory.now) }
{
    let Ok(memory) = <[u64; LINE_LENGTH]>::try_from(memory) else {
        return Err(Refusal::Malformed);
    };
    bench::start(words, count, memory)
}
