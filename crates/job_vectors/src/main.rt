// Jobs and lines of a listing (01, 'Jobs'), printed: job_cases reads the jobs of standard input and prints what they hold; line_cases
// prints 01's listing line by line and numbers at the ends of their ranges. make-vectors writes both from 01's rules alone.
#![tactic(auto)]

mod job_cases;
mod line_cases;

use std::io;

const INPUT_BYTES: usize = 262144;

fn main(rt: HostRuntime) -> io::Result<()> {
    let mut buffer = [0; INPUT_BYTES];
    let input = program_io::read_full(&mut rt.stdin(), &mut buffer)?;
    let mut out = rt.stdout();
    job_cases::all(&mut out, input)?;
    line_cases::all(&mut out)
}
