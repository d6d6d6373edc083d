// What is reported of a bench's answer and of a message written, and a truth value as a number.
ghost use Rattle.std.specs.Prelude.{◌≡◌};
ghost use Rattle.flits.specs.Writing.{told_written};
ghost use Rattle.c_answers.specs.Reports.{reported};
ghost use Rattle.c_answers.specs.Words.{truth, answer_words, written_words};

use crate::reports::report;
use numbers::refusals::{ACCEPTED, Refusal};
use protocol::Answer;

// The five words of an answer, of which the first is returned.
pub fn report_answer(out: &mut [u64], answer: Answer) -> u64
    ensures refusal { result ≡ answer.refusal }
    ensures report { out.new ≡ reported out.old (answer_words answer) }
{
    let words = [
        answer.refusal,
        answer.kind,
        answer.value,
        answer.sent,
        answer.tiles,
    ];
    report(out, &words);
    words[0]
}

// The refusal number of a write, which is returned too, and how many flits were written. Numbers and no Result, so that any are reported;
// and apart from report_checked, since each contract names its own record of the definitions.
pub fn report_written(out: &mut [u64], refusal: u64, flits: usize) -> u64
    ensures refusal { result ≡ refusal }
    ensures report { out.new ≡ reported out.old (written_words (record { refusal = refusal; flits = flits })) }
{
    crate::reports::report_two(out, refusal, flits);
    refusal
}

// A write's answer in the paper's numbers.
pub fn written_numbers(written: Result<usize, Refusal>) -> (u64, usize)
    ensures refusal { result.0 ≡ (told_written written).refusal }
    ensures flits { result.1 ≡ (told_written written).flits }
{
    match written {
        Ok(flits) => (ACCEPTED, flits),
        Err(refusal) => (u64::from(refusal), 0),
    }
}

// By its own name, as the definition.
pub fn truth(holds: bool) -> u64
    ensures { result ≡ truth holds }
{
    u64::from(holds)
}
