// Runs the job on standard input and prints its listing, or only the line of its refusal (01, 'Jobs'). It holds the job, the bench and
// one buffer.
#![tactic(auto)]

use job_print::{BENCH_WORDS, BUFFER_BYTES, INPUT_BYTES};
use std::io;

fn main(rt: HostRuntime) -> io::Result<()> {
    let mut input = [0; INPUT_BYTES];
    let mut words = [0; BENCH_WORDS];
    let mut buffer = [0; BUFFER_BYTES];
    let job = job_print::read_job(&mut rt.stdin(), &mut input)?;
    job_print::print_job(&mut rt.stdout(), &mut words, job, &mut buffer)
}
