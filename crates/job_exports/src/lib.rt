// The calls of a job made one by one, with their lines of the listing. Apart from the other exported functions, so that the compiler has
// one caller of each call on a bench, and puts it in there. specs/Arguments: which call of a job it is.
#![tactic(auto)]

ghost use Rattle.std.specs.Prelude.{◌≡◌, ◌∷◌, []};
ghost use Rattle.calls.specs.Calls.{answer_to, after_call};
ghost use Rattle.job_format.specs.Job.{job_call_at};
ghost use Rattle.job_rules.specs.Buffers.{buffers_after, places_after};
ghost use Rattle.job_rules.specs.Listing.{call_lines};
ghost use Rattle.c_answers.specs.Reports.{reported};
ghost use Rattle.job_exports.specs.Arguments.{call_in};

// Makes the call that stands at a place of a job (HEADER_BYTES for the first) on the bench in the words, and writes its lines of the
// listing, as call number `number`, from a place of the text on. Returns the call's refusal number. Reports the place behind the lines,
// which is past the text's end where they do not all fit, and the place of the next call.
#[unsafe(no_mangle)]
pub extern "C" fn duzh_run_call(
    words: &mut [u64],
    job: &[u8],
    at: usize,
    number: u64,
    line: u64,
    text: &mut [u8],
    from: usize,
    out: &mut [u64],
) -> u64
    ensures refusal { result ≡ (answer_to (call_in job.now at) words.old).refusal }
    ensures after { words.new ≡ after_call (call_in job.now at) words.old }
    ensures text { text.new ≡ buffers_after text.old from (call_lines line number (call_in job.now at) words.old) }
    ensures report { out.new ≡ reported out.old (places_after text.old from (call_lines line number (call_in job.now at) words.old) ∷ (job_call_at job.now at).next ∷ []) }
{
    let call = job_format::call_at(job, at);
    let told = calls::told(jobs::run_call(words, call));
    let place = jobs::answer_lines(text, from, words, line, number, told);
    c_answers::report_made(out, place, call, told)
}
