// The check of a whole job (01, 'Jobs'), field after field.
ghost use Rattle.std.specs.Prelude.{◌≡◌, length};
ghost use Rattle.job_format.specs.Check.{told_checked, check_end, check_fields, check_job};

use crate::fields::Field;
use crate::places::HEADER_FIELDS;
use numbers::limits::MOST_JOB_BYTES;
use numbers::refusals::Refusal;

// What a job is refused for, and the offset of the bad field.
#[derive(Clone, Copy, Debug, PartialEq, Eq)]
pub struct JobFault {
    pub refusal: Refusal,
    pub offset: usize,
}

// The job ends at a place, `before` fields standing before it.
#[tactic(auto, using(std::proofs::lemmas::Bool::Decides::nat_tests), unfolding(crate::specs::Check::check_end))]
fn check_end(at: usize, before: usize) -> Result<(), JobFault>
    ensures { told_checked result ≡ check_end at before }
{
    if before < HEADER_FIELDS {
        return Err(JobFault {
            refusal: Refusal::JobPlace,
            offset: at,
        });
    }
    Ok(())
}

fn check_fields(job: &[u8]) -> Result<(), JobFault>
    ensures { told_checked result ≡ check_fields (length job.now) job.now 0 0 }
{
    let mut at = 0;
    let mut before = 0;
    // no `for`: a field's own length says where the next one stands
    while at < job.len() {
        let field = Field { job, at };
        field.check(before).map_err(|refusal| JobFault {
            refusal,
            offset: at,
        })?;
        at = field.next();
        before += 1;
    }
    check_end(at, before)
}

// Checks a whole job: accepted, or refused for what is wrong with its first bad field.
#[tactic(auto, using(std::proofs::lemmas::Bool::Decides::nat_tests), unfolding(crate::specs::Check::check_job))]
pub fn check_job(job: &[u8]) -> Result<(), JobFault>
    ensures { told_checked result ≡ check_job job.now }
{
    if job.len() > MOST_JOB_BYTES {
        return Err(JobFault {
            refusal: Refusal::JobTooLong,
            offset: MOST_JOB_BYTES,
        });
    }
    check_fields(job)
}
