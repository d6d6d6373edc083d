// Where a job's run (01, 'Jobs') stands between its pieces: how it begins, goes on and ends.
ghost use Rattle.std.specs.Prelude.{◌≡◌, None};
ghost use Rattle.job_rules.specs.RunStates.{begun_rest, rest_to_resume};

use job_format::places::HEADER_BYTES;

// A call's lines are never more bytes (specs/Room).
pub const MOST_CALL_BYTES: usize = 12180;

// A run after a piece: how many bytes of the listing stand at the buffer's start, and what is left of the job where the run goes on.
#[derive(Clone, Copy, Debug, PartialEq, Eq)]
pub struct Run {
    pub put: usize,
    pub rest: Option<Rest>,
}

// Where the next call stands in the job, and how many calls were made.
#[derive(Clone, Copy, Debug, PartialEq, Eq)]
pub struct Rest {
    pub at: usize,
    pub calls: u64,
}

impl Rest {
    // Of an accepted job: the first call.
    pub fn begin() -> Rest
        ensures { result ≡ begun_rest }
    {
        Rest {
            at: HEADER_BYTES,
            calls: 0,
        }
    }
}

impl Run {
    // A run that ends behind so many bytes.
    pub fn end(put: usize) -> Run
        ensures { result ≡ record { put = put; rest = None } }
    {
        Run { put, rest: None }
    }

    // What a run goes on with. One whose calls are not fewer than the bytes before its place does not go on.
    #[tactic(auto, using(std::proofs::lemmas::Bool::Decides::nat_tests), unfolding(crate::specs::RunStates::rest_to_resume))]
    pub fn resume(self) -> Option<Rest>
        ensures { result ≡ rest_to_resume self }
    {
        self.rest.filter(|rest| rest.calls < rest.at as u64)
    }
}
