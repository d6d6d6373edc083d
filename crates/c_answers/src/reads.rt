// What is reported of a read of flits.
ghost use Rattle.std.specs.Prelude.{◌≡◌, drop};
ghost use Rattle.flits.specs.Reading.{told_read, read_of};
ghost use Rattle.c_answers.specs.Reports.{reported};
ghost use Rattle.c_answers.specs.Words.{read_words};

use crate::reports::report;
use flits::{FIELDS, Read};
use numbers::refusals::{ACCEPTED, Refusal};

// Words before the fields: the refusal number, the flits used, where the data start.
const BEFORE_FIELDS: usize = 3;

const READ_WORDS: usize = BEFORE_FIELDS + FIELDS;

fn words_of(read: Result<Read, Refusal>) -> [u64; READ_WORDS]
    ensures { result ≡ read_words (told_read read) }
{
    let mut words = [0; READ_WORDS];
    match read {
        Ok(front) => {
            words[0] = ACCEPTED;
            words[1] = front.used as u64;
            words[2] = front.start as u64;
            words[BEFORE_FIELDS..].copy_from_slice(&<[u64; FIELDS]>::from(front.header));
        }
        Err(refusal) => words[0] = u64::from(refusal),
    }
    words
}

fn report_read(out: &mut [u64], read: Result<Read, Refusal>) -> u64
    ensures refusal { result ≡ (told_read read).refusal }
    ensures report { out.new ≡ reported out.old (read_words (told_read read)) }
{
    let words = words_of(read);
    report(out, &words);
    words[0]
}

// The front message from a place of the flits on: refusal, flits used, where the data start (counted from the place), the fields.
pub fn read_and_report(flits: &[u64], at: usize, out: &mut [u64]) -> u64
    ensures refusal { result ≡ (read_of (drop at flits.now)).refusal }
    ensures report { out.new ≡ reported out.old (read_words (read_of (drop at flits.now))) }
{
    let read = flits::read_at(flits, at);
    report_read(out, read)
}
