// Runs every job that its arguments name, a file each, and prints behind a line with the name the listing, or the line of the refusal;
// before them the same of every cut of the first one: its first n bytes, for each n below its length.
#![tactic(auto)]

use job_print::{BENCH_WORDS, BUFFER_BYTES, INPUT_BYTES};
use std::io::Write;
use std::rt::Files;
use std::{env, fs, io};

// Where listings go, and what jobs are run in.
#[derive(Drop)]
struct Runner<W> {
    out: W,
    words: [u64; BENCH_WORDS],
    buffer: [u8; BUFFER_BYTES],
}

impl<W: Write> Runner<W> {
    fn print(&mut self, job: &[u8]) -> io::Result<()> {
        job_print::print_job(&mut self.out, &mut self.words, job, &mut self.buffer)
    }

    fn job(&mut self, name: &str, job: &[u8]) -> io::Result<()> {
        writeln!(self.out, "== {name}")?;
        self.print(job)
    }

    fn cuts(&mut self, job: &[u8]) -> io::Result<()> {
        for n in 0..job.len() {
            writeln!(self.out, "== cut {n}")?;
            self.print(&job[..n])?;
        }
        Ok(())
    }
}

// The job in the file of a name. A file that cannot be opened is only named on standard error.
fn read_job<'a, R: Files + Eprint>(
    rt: &R,
    name: &str,
    input: &'a mut [u8; INPUT_BYTES],
) -> io::Result<Option<&'a [u8]>> {
    match fs::open(rt, name) {
        Ok(mut file) => Ok(Some(job_print::read_job(&mut file, input)?)),
        Err(error) => {
            eprintln!(rt; "{name}: {error}")?;
            Ok(None)
        }
    }
}

fn main(rt: HostRuntime) -> io::Result<()> {
    let names: Vec<String> = env::args(&rt)?.skip(1).collect(rt.alloc())?;
    let mut input = [0; INPUT_BYTES];
    let mut runner = Runner {
        out: rt.stdout(),
        words: [0; BENCH_WORDS],
        buffer: [0; BUFFER_BYTES],
    };
    let first = names.first().map_or("", |name| name.as_str());
    if let Some(job) = read_job(&rt, first, &mut input)? {
        runner.cuts(job)?;
    }
    for name in &names {
        if let Some(job) = read_job(&rt, name.as_str(), &mut input)? {
            runner.job(name.as_str(), job)?;
        }
    }
    Ok(())
}
