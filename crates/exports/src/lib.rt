// All of it for programs in other languages, but for a job's calls (crate job_exports). Numbers, and lent words as pointer and length, go
// in; each function returns the refusal number and reports the whole answer. include/duzhmarqi.h says the same for C. The definitions are
// those of the crates just below: c_arguments for what is given, c_answers for what is reported.
#![tactic(auto)]

ghost use Rattle.std.specs.Prelude.{◌≡◌, length, drop};
ghost use Rattle.protocol.specs.Parts.{load, store, evict, taking, to_tile, from_tile, memory_step, memory_ack, home_eviction};
ghost use Rattle.protocol.specs.Answers.{answer_of};
ghost use Rattle.calls.specs.Calls.{well_formed, answer_to, after_call, words_started};
ghost use Rattle.calls.specs.Numbered.{call_at_tile, call_at_home};
ghost use Rattle.messages.specs.Queues.{sent_queues};
ghost use Rattle.messages.specs.Rows.{sent_message};
ghost use Rattle.flits.specs.Reading.{read_of};
ghost use Rattle.job_format.specs.Check.{check_job};
ghost use Rattle.c_arguments.specs.Arguments.{start_from, written_from, buffer_from, sent_written, sent_buffer};
ghost use Rattle.c_answers.specs.Reports.{reported};
ghost use Rattle.c_answers.specs.Words.{truth, answer_words, read_words, written_words, checked_words};

use c_answers::report_answer;
use calls::{HomeCall, TileCall};

// ---- the calls on a bench, a function for each, since C has one name for a function. Each reports refusal, kind, value, `sent`, `tiles`
// (docs/LAYOUT.md)

// A fresh bench of so many tiles, with the eight memory words.
#[unsafe(no_mangle)]
pub extern "C" fn duzh_start(words: &mut [u64], count: u64, memory: &[u64], out: &mut [u64]) -> u64
    ensures refusal { result ≡ (answer_of (start_from words.old count memory.now)).refusal }
    ensures after { words.new ≡ words_started words.old count (start_from words.old count memory.now) }
    ensures report { out.new ≡ reported out.old (answer_words (answer_of (start_from words.old count memory.now))) }
{
    let answer = c_arguments::start_from(words, count, memory);
    report_answer(out, calls::told(answer))
}

// Do the words begin with a bench? 1 if so, else 0.
#[unsafe(no_mangle)]
pub extern "C" fn duzh_well_formed(words: &[u64]) -> u64
    ensures { result ≡ truth (well_formed words.now) }
{
    c_answers::truth(well_formed::well_formed(words))
}

fn run_tile(words: &mut [u64], call: TileCall, out: &mut [u64]) -> u64
    ensures refusal { result ≡ (answer_to (call_at_tile call) words.old).refusal }
    ensures after { words.new ≡ after_call (call_at_tile call) words.old }
    ensures report { out.new ≡ reported out.old (answer_words (answer_to (call_at_tile call) words.old)) }
{
    let answer = bench::at_tile(words, call.tag, call.tile, call.word, call.value);
    report_answer(out, calls::told(answer))
}

#[unsafe(no_mangle)]
pub extern "C" fn duzh_load(words: &mut [u64], tile: u64, word: u64, out: &mut [u64]) -> u64
    ensures refusal { result ≡ (answer_to (load tile word) words.old).refusal }
    ensures after { words.new ≡ after_call (load tile word) words.old }
    ensures report { out.new ≡ reported out.old (answer_words (answer_to (load tile word) words.old)) }
{
    run_tile(words, calls::load(tile, word), out)
}

#[unsafe(no_mangle)]
pub extern "C" fn duzh_store(
    words: &mut [u64],
    tile: u64,
    word: u64,
    value: u64,
    out: &mut [u64],
) -> u64
    ensures refusal { result ≡ (answer_to (store tile word value) words.old).refusal }
    ensures after { words.new ≡ after_call (store tile word value) words.old }
    ensures report { out.new ≡ reported out.old (answer_words (answer_to (store tile word value) words.old)) }
{
    run_tile(words, calls::store(tile, word, value), out)
}

#[unsafe(no_mangle)]
pub extern "C" fn duzh_evict(words: &mut [u64], tile: u64, out: &mut [u64]) -> u64
    ensures refusal { result ≡ (answer_to (evict tile) words.old).refusal }
    ensures after { words.new ≡ after_call (evict tile) words.old }
    ensures report { out.new ≡ reported out.old (answer_words (answer_to (evict tile) words.old)) }
{
    run_tile(words, calls::evict(tile), out)
}

#[unsafe(no_mangle)]
pub extern "C" fn duzh_to_tile(words: &mut [u64], tile: u64, out: &mut [u64]) -> u64
    ensures refusal { result ≡ (answer_to (to_tile tile) words.old).refusal }
    ensures after { words.new ≡ after_call (to_tile tile) words.old }
    ensures report { out.new ≡ reported out.old (answer_words (answer_to (to_tile tile) words.old)) }
{
    run_tile(words, calls::to_tile(tile), out)
}

fn run_home(words: &mut [u64], call: HomeCall, out: &mut [u64]) -> u64
    ensures refusal { result ≡ (answer_to (call_at_home call) words.old).refusal }
    ensures after { words.new ≡ after_call (call_at_home call) words.old }
    ensures report { out.new ≡ reported out.old (answer_words (answer_to (call_at_home call) words.old)) }
{
    let answer = bench::at_home(words, call.tag, call.tile);
    report_answer(out, calls::told(answer))
}

#[unsafe(no_mangle)]
pub extern "C" fn duzh_taking(words: &mut [u64], out: &mut [u64]) -> u64
    ensures refusal { result ≡ (answer_to taking words.old).refusal }
    ensures after { words.new ≡ after_call taking words.old }
    ensures report { out.new ≡ reported out.old (answer_words (answer_to taking words.old)) }
{
    run_home(words, calls::taking(), out)
}

#[unsafe(no_mangle)]
pub extern "C" fn duzh_from_tile(words: &mut [u64], tile: u64, out: &mut [u64]) -> u64
    ensures refusal { result ≡ (answer_to (from_tile tile) words.old).refusal }
    ensures after { words.new ≡ after_call (from_tile tile) words.old }
    ensures report { out.new ≡ reported out.old (answer_words (answer_to (from_tile tile) words.old)) }
{
    run_home(words, calls::from_tile(tile), out)
}

#[unsafe(no_mangle)]
pub extern "C" fn duzh_memory_step(words: &mut [u64], out: &mut [u64]) -> u64
    ensures refusal { result ≡ (answer_to memory_step words.old).refusal }
    ensures after { words.new ≡ after_call memory_step words.old }
    ensures report { out.new ≡ reported out.old (answer_words (answer_to memory_step words.old)) }
{
    run_home(words, calls::memory_step(), out)
}

#[unsafe(no_mangle)]
pub extern "C" fn duzh_memory_ack(words: &mut [u64], out: &mut [u64]) -> u64
    ensures refusal { result ≡ (answer_to memory_ack words.old).refusal }
    ensures after { words.new ≡ after_call memory_ack words.old }
    ensures report { out.new ≡ reported out.old (answer_words (answer_to memory_ack words.old)) }
{
    run_home(words, calls::memory_ack(), out)
}

#[unsafe(no_mangle)]
pub extern "C" fn duzh_home_eviction(words: &mut [u64], out: &mut [u64]) -> u64
    ensures refusal { result ≡ (answer_to home_eviction words.old).refusal }
    ensures after { words.new ≡ after_call home_eviction words.old }
    ensures report { out.new ≡ reported out.old (answer_words (answer_to home_eviction words.old)) }
{
    run_home(words, calls::home_eviction(), out)
}

// ---- the messages that a call sent, out of the words that it left: `sent` and `tiles` are the last two words of its answer

// How many messages there are.
#[unsafe(no_mangle)]
pub extern "C" fn duzh_message_count(sent: u64, tiles: u64) -> u64
    ensures { result ≡ length (sent_queues sent tiles) }
{
    messages::count(sent, tiles)
}

// The flits of the message of this index, from 0, written at a place of the buffer, of the line with this address. Reports the refusal
// number and how many flits were written; where there is no such message it is refused 11.
#[unsafe(no_mangle)]
pub extern "C" fn duzh_message_flits(
    words: &[u64],
    sent: u64,
    tiles: u64,
    index: u64,
    line: u64,
    buffer: &mut [u64],
    at: usize,
    out: &mut [u64],
) -> u64
    ensures refusal { result ≡ (sent_written line (sent_message words.now sent tiles index) (length buffer.old) at).refusal }
    ensures after { buffer.new ≡ sent_buffer line (sent_message words.now sent tiles index) buffer.old at }
    ensures report { out.new ≡ reported out.old (written_words (sent_written line (sent_message words.now sent tiles index) (length buffer.old) at)) }
{
    let written = c_arguments::write_sent(words, sent, tiles, index, line, buffer, at);
    let (refusal, flits) = c_answers::written_numbers(written);
    c_answers::report_written(out, refusal, flits)
}

// ---- flits and jobs that a caller brings

// The front message from a place of the flits on. Reports refusal, flits used, where the data start (counted from the place), the fields.
#[unsafe(no_mangle)]
pub extern "C" fn duzh_read(flits: &[u64], at: usize, out: &mut [u64]) -> u64
    ensures refusal { result ≡ (read_of (drop at flits.now)).refusal }
    ensures report { out.new ≡ reported out.old (read_words (read_of (drop at flits.now))) }
{
    c_answers::read_and_report(flits, at, out)
}

// Writes a message with its data words at a place of the buffer. Reports the refusal number and how many flits were written; other
// than 18 fields are refused 1.
#[unsafe(no_mangle)]
pub extern "C" fn duzh_write(
    buffer: &mut [u64],
    at: usize,
    fields: &[u64],
    words: &[u64],
    out: &mut [u64],
) -> u64
    ensures refusal { result ≡ (written_from fields.now (length words.now) (length buffer.old) at).refusal }
    ensures after { buffer.new ≡ buffer_from fields.now words.now buffer.old at }
    ensures report { out.new ≡ reported out.old (written_words (written_from fields.now (length words.now) (length buffer.old) at)) }
{
    let written = c_arguments::write_from(buffer, at, fields, words);
    let (refusal, flits) = c_answers::written_numbers(written);
    c_answers::report_written(out, refusal, flits)
}

// Checks a whole job. Reports the refusal number and the offset of the bad field.
#[unsafe(no_mangle)]
pub extern "C" fn duzh_check_job(job: &[u8], out: &mut [u64]) -> u64
    ensures refusal { result ≡ (check_job job.now).refusal }
    ensures report { out.new ≡ reported out.old (checked_words (check_job job.now)) }
{
    let (refusal, offset) = c_answers::checked_numbers(job_format::check_job(job));
    c_answers::report_checked(out, refusal, offset)
}
