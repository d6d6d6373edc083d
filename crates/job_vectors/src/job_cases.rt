// Checks jobs and prints what they hold: the refused line; or the bench line, the memory words as a message's line, a line for each of the
// first calls (tag, tile, word, value) and the end line. Each job stands behind its length in three bytes.
ghost use Rattle.std.specs.Prelude.{◌≡◌, ◌+◌, ◌-◌, ◌≤◌, ◌<◌, length};
ghost use Rattle.std.specs.Iterator.{at_most};

use job_format::places::HEADER_BYTES;
use job_format::{JobCall, JobFault};
use std::io;
use std::io::Write;

// calls of a job that get a line
const LISTED_CALLS: usize = 12;
// room for the line of a refused job, and for the lines of an accepted one
const LINE_ROOM: usize = 64;

const LINES_ROOM: usize = 4096;

// The jobs of an input, in order. One that is cut off is not looked at.
#[derive(Drop)]
struct Jobs<'a>(&'a [u8]);

impl<'a> Iterator for Jobs<'a> {
    type Item = &'a [u8];

    ghost remaining = { λ s. at_most (length s.0.now) };

    fn next(&mut self) -> Option<&'a [u8]> {
        let (length, rest) = self.0.split_first_chunk::<3>()?;
        let [high, middle, low] = *length;
        let length = u32::from_be_bytes([0, high, middle, low]) as usize;
        let (job, rest) = rest.split_at_checked(length)?;
        self.0 = rest;
        Some(job)
    }
}

// The calls of an accepted job, in order.
#[derive(Drop)]
struct Calls<'a> {
    job: &'a [u8],
    at: usize,
}

impl Iterator for Calls<'_> {
    type Item = JobCall;

    ghost remaining = { λ s. at_most (length s.job.now - s.at) };

    fn next(&mut self) -> Option<JobCall> {
        if self.at >= self.job.len() {
            return None;
        }
        let call = job_format::call_at(self.job, self.at);
        self.at = call.next;
        Some(call)
    }
}

impl<'a> Calls<'a> {
    fn of(job: &'a [u8]) -> Calls<'a> {
        Calls {
            job,
            at: HEADER_BYTES,
        }
    }
}

fn refused<W: Write>(out: &mut W, fault: JobFault) -> io::Result<()> {
    let mut buffer = [0; LINE_ROOM];
    let place = listing::refused_line(
        &mut buffer,
        0,
        u64::from(fault.refusal),
        fault.offset as u64,
    );
    program_io::print_fitted(out, &buffer, place)
}

fn accepted<W: Write>(out: &mut W, job: &[u8]) -> io::Result<()> {
    let mut buffer = [0; LINES_ROOM];
    let count = job_format::tile_count(job);
    let address = job_format::line_address(job);
    let mut place = listing::bench_line(&mut buffer, 0, count, address);
    place = listing::message_line(&mut buffer, place, &job_format::memory(job));
    for call in Calls::of(job).take(LISTED_CALLS) {
        place = listing::call_line(
            &mut buffer,
            place,
            call.tag,
            call.tile,
            call.word,
            call.value,
        );
    }
    place = listing::end_line(&mut buffer, place, Calls::of(job).count() as u64);
    program_io::print_fitted(out, &buffer, place)
}

pub fn all<W: Write>(out: &mut W, input: &[u8]) -> io::Result<()> {
    for job in Jobs(input) {
        match job_format::check_job(job) {
            Ok(()) => accepted(out, job)?,
            Err(fault) => refused(out, fault)?,
        }
    }
    Ok(())
}
