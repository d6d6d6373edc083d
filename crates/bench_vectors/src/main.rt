// Makes calls on a bench in lent words and prints what they answer and which words they changed. Standard input is lines of decimal
// numbers; the first byte of a line says what it is:
//     w PLACE WORD PLACE WORD ..                        puts words at places of the lent memory, which starts as 0
//     c CASE ROOM CALL TILE WORD VALUE                  a call on the first ROOM words; CALL is the tag that jobs give it
//     s CASE ROOM TILES MEMORY.. (8)                    a start on the first ROOM words
// Any other line is a remark. A call prints: case; well formed before it; refusal, kind, value, sent, tiles; each changed place.
#![tactic(auto)]

use calls::Answer;
use job_format::JobCall;
use program_io::{Case, Cases, number_at};
use std::io::{BufWriter, Write};
use std::{fmt, io};

// The sizes of the input and of the lent memory, which is more than a bench of 64 tiles needs.
const INPUT_BYTES: usize = 393216;

const LENT_WORDS: usize = 5600;

const DECIMAL: u64 = 10;

// ---- the numbers of a line
// of a call and of a start
const CASE_AT: usize = 0;

const ROOM_AT: usize = 1;
// of a call alone
const TAG_AT: usize = 2;

const TILE_AT: usize = 3;

const WORD_AT: usize = 4;

const VALUE_AT: usize = 5;
// of a start alone; behind the tile count eight words of memory
const TILE_COUNT_AT: usize = 2;

const MEMORY_AT: usize = 3;
// of words that are put: a place and its word
const PLACE_AND_WORD: usize = 2;
// no call of these stands in a job, and `run_call`, which takes a job's call whole, does not look at it
const NO_NEXT: usize = 0;

// An answer in the paper's numbers.
#[derive(Clone, Copy)]
struct Told(Answer);

impl fmt::Display for Told {
    fn fmt<W: fmt::Write>(&self, f: &mut fmt::Formatter<W>) -> fmt::Result {
        let told = calls::told(self.0);
        write!(
            f,
            "refusal {} kind {} value {} sent {} tiles {}",
            told.refusal, told.kind, told.value, told.sent, told.tiles
        )
    }
}

fn call(words: &mut [u64], numbers: &[u64]) -> Answer {
    let call = JobCall {
        tag: number_at(numbers, TAG_AT),
        tile: number_at(numbers, TILE_AT),
        word: number_at(numbers, WORD_AT),
        value: number_at(numbers, VALUE_AT),
        next: NO_NEXT,
    };
    jobs::run_call(words, call)
}

fn start(words: &mut [u64], numbers: &[u64]) -> Answer {
    let memory = std::array::from_fn(|word| number_at(numbers, MEMORY_AT + word));
    bench::start(words, number_at(numbers, TILE_COUNT_AT), memory)
}

// Runs a call or a start on the first ROOM words, if there are as many, and prints what it did.
fn show<W: Write, F: FnOnce(&mut [u64], &[u64]) -> Answer>(
    out: &mut W,
    run: F,
    words: &mut [u64; LENT_WORDS],
    numbers: &[u64],
) -> io::Result<()>
    requires { F.IsAlwaysCallable run }
{
    let before = *words;
    write!(out, "case {}", number_at(numbers, CASE_AT))?;
    if let Some(lent) = words.get_mut(..number_at(numbers, ROOM_AT) as usize) {
        let formed = u64::from(well_formed::well_formed(lent));
        let told = Told(run(lent, numbers));
        write!(out, " formed {formed} {told}")?;
    }
    write!(out, " words")?;
    for (place, (was, is)) in before.iter().zip(words.iter()).enumerate() {
        if was != is {
            write!(out, " {place}={is}")?;
        }
    }
    writeln!(out)
}

fn put(words: &mut [u64], numbers: &[u64]) {
    for pair in numbers.chunks(PLACE_AND_WORD) {
        if let Some(word) = words.get_mut(number_at(pair, 0) as usize) {
            *word = number_at(pair, 1);
        }
    }
}

fn one<W: Write>(
    out: &mut W,
    words: &mut [u64; LENT_WORDS],
    case: Case,
    numbers: &mut Vec<u64>,
) -> io::Result<()> {
    let Some(command @ (b'w' | b'c' | b's')) = case.command else {
        return Ok(());
    };
    case.numbers(numbers)?;
    match command {
        b'w' => put(words, numbers.as_slice()),
        b'c' => show(out, call, words, numbers.as_slice())?,
        _ => show(out, start, words, numbers.as_slice())?,
    }
    Ok(())
}

fn main(rt: HostRuntime) -> io::Result<()> {
    let mut buffer = vec![in rt.alloc(); 0; INPUT_BYTES]?;
    let input = program_io::read_full(&mut rt.stdin(), buffer.as_mut_slice())?;
    let mut words = [0; LENT_WORDS];
    let mut numbers = Vec::new(rt.alloc());
    let mut out = BufWriter::new(rt.alloc(), rt.stdout())?;
    for case in Cases::new(input, DECIMAL) {
        one(&mut out, &mut words, case, &mut numbers)?;
    }
    out.flush()
}
