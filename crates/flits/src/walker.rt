// A recording is walked by a reader that holds the lent flits and its place. `step` and `walk` have plain parameters.
// `start`, `moved_to` and `next` are functions, no methods: docs/PROVED.md, docs/DECISIONS.md and the must-fail edits name them so.
ghost use Rattle.std.specs.Prelude.{◌≡◌, drop};
ghost use Rattle.flit_rules.specs.Reading.{told_read, read_of};
ghost use Rattle.flits.specs.Walk.{told_walked, walk_of};

use flit_rules::Read;
use numbers::refusals::Refusal;

#[derive(Clone, Copy)]
pub struct Walker<'a> {
    pub flits: &'a [u64],
    pub at: usize,
}

// At the front of a recording.
pub fn start<'a>(flits: &'a [u64]) -> Walker<'a>
    ensures { (result.flits ≡ flits.entry) × (result.at ≡ 0) }
{
    Walker { flits, at: 0 }
}

// At another place of the same recording.
pub fn moved_to<'a>(walker: Walker<'a>, at: usize) -> Walker<'a>
    ensures { (result.flits ≡ walker.entry.flits) × (result.at ≡ at) }
{
    Walker { at, ..walker }
}

// The message at the walker's place.
pub fn next<'a>(walker: Walker<'a>) -> Result<Read, Refusal>
    ensures { told_read result ≡ read_of (drop walker.entry.at walker.entry.flits.now) }
{
    flit_reader::read_at(walker.flits, walker.at)
}

// The message at a place of a recording, by a walker that is moved there.
pub fn step(flits: &[u64], at: usize) -> Result<Read, Refusal>
    ensures { told_read result ≡ read_of (drop at flits.now) }
{
    next(moved_to(start(flits), at))
}

// How far a recording was walked: the messages passed, the place behind them, and the refusal of what stands there (10 at the end).
#[derive(Clone, Copy, Debug, PartialEq, Eq)]
pub struct Walked {
    pub messages: usize,
    pub at: usize,
    pub refusal: Refusal,
}

// Walks a recording to its end, or to the first message that is refused.
pub fn walk(flits: &[u64]) -> Walked
    ensures { told_walked result ≡ walk_of flits.now }
{
    let mut messages = 0;
    let mut at = 0;
    // no `for`: only a message that was read says how many flits it uses, and the refusal that ends the walk is a part of the answer
    loop {
        match step(flits, at) {
            Ok(front) => {
                messages += 1;
                at += front.used;
            }
            Err(refusal) => {
                return Walked {
                    messages,
                    at,
                    refusal,
                };
            }
        }
    }
}
