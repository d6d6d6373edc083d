// What is reported of a job: of its check, and of each of its calls.
ghost use Rattle.std.specs.Prelude.{◌≡◌, ◌∷◌, []};
ghost use Rattle.job_format.specs.Check.{told_checked};
ghost use Rattle.c_answers.specs.Reports.{reported};
ghost use Rattle.c_answers.specs.Words.{checked_words};

use crate::reports::report_two;
use job_format::{JobCall, JobFault};
use numbers::refusals::ACCEPTED;
use protocol::Answer;

// The refusal number of a check, which is returned too, and the offset of the bad field: as report_written of answers.
pub fn report_checked(out: &mut [u64], refusal: u64, offset: usize) -> u64
    ensures refusal { result ≡ refusal }
    ensures report { out.new ≡ reported out.old (checked_words (record { refusal = refusal; offset = offset })) }
{
    report_two(out, refusal, offset);
    refusal
}

// A check's answer in the paper's numbers.
pub fn checked_numbers(checked: Result<(), JobFault>) -> (u64, usize)
    ensures refusal { result.0 ≡ (told_checked checked).refusal }
    ensures offset { result.1 ≡ (told_checked checked).offset }
{
    match checked {
        Ok(()) => (ACCEPTED, 0),
        Err(fault) => (u64::from(fault.refusal), fault.offset),
    }
}

// The place behind the lines of a call that was made, and the place of the next call. The call's refusal number is returned.
pub fn report_made(out: &mut [u64], place: usize, call: JobCall, answer: Answer) -> u64
    ensures refusal { result ≡ answer.refusal }
    ensures report { out.new ≡ reported out.old (place ∷ call.next ∷ []) }
{
    report_two(out, place as u64, call.next);
    answer.refusal
}
