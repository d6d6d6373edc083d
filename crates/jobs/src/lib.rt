// Jobs on a bench (01, 'Jobs'): each call of a job is one on the bench in lent words, and its lines go into a lent buffer. A whole job runs
// in pieces: each puts as much of the listing into the buffer as surely fits, from the buffer's start on, and answers how much that is and
// where the run goes on. A buffer of fewer than MOST_CALL_BYTES bytes gets nothing.
// - message_lines, call_lines: the lines of a call; ends: a run's last line
// - lib: the bench started, a call made, and the pieces
// The definitions are crate job_rules.
#![tactic(auto)]

mod call_lines;
mod ends;
mod message_lines;

ghost use Rattle.std.specs.Prelude.{◌≡◌, ◌≤◌, ◌<◌, length};
ghost use Rattle.protocol.specs.Answers.{answer_of};
ghost use Rattle.calls.specs.Answers.{told};
ghost use Rattle.calls.specs.Calls.{answer_to, after_call, start_on, words_started};
ghost use Rattle.job_format.specs.Job.{tile_count_of, memory_words_of, call_numbers_of};
ghost use Rattle.job_rules.specs.Calls.{bench_call};
ghost use Rattle.job_rules.specs.Buffers.{AllPlaced};
ghost use Rattle.job_rules.specs.Listing.{call_lines};
ghost use Rattle.job_rules.specs.Room.{most_call_bytes};
ghost use Rattle.job_rules.specs.RunStates.{PutsPiece};
ghost use Rattle.job_rules.specs.Pieces.{piece_in, accepted_piece, first_piece, next_piece};

pub use call_lines::answer_lines;
use calls::Answer;
use job_format::JobCall;
use job_rules::MOST_CALL_BYTES;
pub use job_rules::{Rest, Run};

// A fresh bench as the job's header says.
pub fn start_job(words: &mut [u64], job: &[u8]) -> Answer
    ensures answer { told result ≡ answer_of (start_on words.old (tile_count_of job.now) (memory_words_of job.now)) }
    ensures after { words.new ≡ words_started words.old (tile_count_of job.now) (start_on words.old (tile_count_of job.now) (memory_words_of job.now)) }
{
    bench::start(words, job_format::tile_count(job), job_format::memory(job))
}

// A job's call on the bench in the lent words.
pub fn run_call(words: &mut [u64], call: JobCall) -> Answer
    ensures answer { told result ≡ answer_to (bench_call (call_numbers_of call)) words.old }
    ensures after { words.new ≡ after_call (bench_call (call_numbers_of call)) words.old }
{
    if calls::is_tile_call(call.tag) {
        bench::at_tile(words, call.tag, call.tile, call.word, call.value)
    } else {
        bench::at_home(words, call.tag, call.tile)
    }
}

// Makes a job's call on the bench in the words, and writes its lines.
pub fn list_call(
    words: &mut [u64],
    call: JobCall,
    buffer: &mut [u8],
    at: usize,
    line: u64,
    number: u64,
) -> usize
    ensures after { words.new ≡ after_call (bench_call (call_numbers_of call)) words.old }
    ensures lines { AllPlaced buffer.old buffer.new at result (call_lines line number (bench_call (call_numbers_of call)) words.old) }
{
    let answer = calls::told(run_call(words, call));
    answer_lines(buffer, at, words, line, number, answer)
}

// Call after call, behind the bytes that are put, while the next one's lines surely fit, and the last line.
fn call_after_call(
    words: &mut [u64],
    job: &[u8],
    buffer: &mut [u8],
    mut put: usize,
    mut rest: Rest,
) -> Run
    requires { (most_call_bytes ≤ length buffer.old) × (rest.calls < rest.at) × (put ≤ length buffer.old) }
    ensures { PutsPiece put buffer.old (piece_in job.now (length buffer.old) put rest.calls rest.at words.old) result words.new buffer.new }
{
    let line = job_format::line_address(job);
    let limit = buffer.len() - MOST_CALL_BYTES;
    // no `for`: a call's field says where the next one stands, and its lines how much room is left
    while put <= limit {
        if rest.at >= job.len() {
            return ends::end(buffer, put, rest.calls);
        }
        let call = job_format::call_at(job, rest.at);
        let calls = rest.calls + 1;
        put = list_call(words, call, buffer, put, line, calls);
        rest = Rest {
            at: call.next,
            calls,
        };
    }
    Run {
        put,
        rest: Some(rest),
    }
}

// The first line of an accepted job, with its bench started in the words, and calls.
fn accepted_piece(words: &mut [u64], job: &[u8], buffer: &mut [u8]) -> Run
    requires { most_call_bytes ≤ length buffer.old }
    ensures { PutsPiece 0 buffer.old (accepted_piece job.now (length buffer.old) words.old) result words.new buffer.new }
{
    // where the words are too few, each call answers that
    let _ = start_job(words, job);
    let count = job_format::tile_count(job);
    let put = listing::bench_line(buffer, 0, count, job_format::line_address(job));
    call_after_call(words, job, buffer, put, Rest::begin())
}

// The first piece: the line of a refused job; or the bench started in the words, the first line and as many calls as surely fit.
pub fn first_piece(words: &mut [u64], job: &[u8], buffer: &mut [u8]) -> Run
    ensures { PutsPiece 0 buffer.old (first_piece job.now (length buffer.old) words.old) result words.new buffer.new }
{
    if buffer.len() < MOST_CALL_BYTES {
        return Run::end(0);
    }
    match job_format::check_job(job) {
        Ok(()) => accepted_piece(words, job, buffer),
        Err(fault) => ends::refused(buffer, fault),
    }
}

// The next piece of a run that goes on.
pub fn next_piece(words: &mut [u64], job: &[u8], buffer: &mut [u8], run: Run) -> Run
    ensures { PutsPiece 0 buffer.old (next_piece job.now (length buffer.old) run words.old) result words.new buffer.new }
{
    if buffer.len() < MOST_CALL_BYTES {
        return Run::end(0);
    }
    let Some(rest) = run.resume() else {
        return Run::end(0);
    };
    call_after_call(words, job, buffer, 0, rest)
}
