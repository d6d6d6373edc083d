// Prints a job's listing, or only the line of its refusal (01, 'Jobs'), on a writer, piece by piece, as jobs puts it into a buffer.
// print does so with lent words and a lent buffer of any size, print_job with those of a program. read_job reads a job into a program's
// input. That input, words and buffer are enough for every job (specs/Sizes). What is written no contract can say; that every piece was
// made, in turn, the words after them say. Where a write fails, nothing more is written, but the job is run to its end all the same, so the
// words do not depend on the writer.
#![tactic(auto)]

ghost use Rattle.std.specs.Prelude.{◌≡◌, ◌≤◌, length, IfOk};
ghost use Rattle.std.specs.Io.KnownBytes.{Consumes, IsAtEnd};
ghost use Rattle.numbers.specs.Limits.{most_job_bytes};
ghost use Rattle.job_rules.specs.Pieces.{words_printed};
ghost use Rattle.job_print.specs.Sizes.{Enough};

use layout::places::{HOME_WORDS, TILE_WORDS};
use numbers::limits::{MOST_JOB_BYTES, MOST_TILES};
use std::io;
use std::io::{Read, Write};

// one byte more than the longest job has: a longer one is seen
pub const INPUT_BYTES: usize = MOST_JOB_BYTES + 1;
// a bench of 64 tiles
pub const BENCH_WORDS: usize = HOME_WORDS + TILE_WORDS * MOST_TILES as usize;

pub const BUFFER_BYTES: usize = 65536;

// Reads a job into a program's own input: whole, but for one that is too long.
pub fn read_job<'a, R: Read>(
    reader: &mut R,
    input: &'a mut [u8; INPUT_BYTES],
) -> io::Result<&'a [u8]>
    ensures sizes { Enough (length input.old) BENCH_WORDS BUFFER_BYTES }
    ensures bytes { IfOk result (λ job. Consumes (R.remaining reader.old) (R.remaining reader.new) job.now) }
    ensures whole { IfOk result (λ job. length job.now ≤ most_job_bytes → IsAtEnd (R.remaining reader.new)) }
{
    program_io::read_full(reader, input)
}

// Runs the job on the lent words, with a lent buffer.
pub fn print<W: Write>(
    out: &mut W,
    words: &mut [u64],
    job: &[u8],
    buffer: &mut [u8],
) -> io::Result<()>
    ensures { words.new ≡ words_printed job.now (length buffer.old) words.old }
{
    let mut run = jobs::first_piece(words, job, buffer);
    let mut printed = out.write_all(&buffer[..run.put]);
    // no `for`: a piece says whether there is another
    while run.rest.is_some() {
        run = jobs::next_piece(words, job, buffer, run);
        printed = printed.and_then(|()| out.write_all(&buffer[..run.put]));
    }
    printed
}

// The same in a program's own words and buffer.
pub fn print_job<W: Write>(
    out: &mut W,
    words: &mut [u64; BENCH_WORDS],
    job: &[u8],
    buffer: &mut [u8; BUFFER_BYTES],
) -> io::Result<()>
    ensures sizes { Enough INPUT_BYTES (length words.old) (length buffer.old) }
    ensures words { words.new ≡ words_printed job.now (length buffer.old) words.old }
{
    print(out, words, job, buffer)
}
