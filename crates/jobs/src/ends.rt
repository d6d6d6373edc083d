// How a job's run (01, 'Jobs') ends: with its last line, or with the only one of a refused job.
ghost use Rattle.std.specs.Prelude.{◌≡◌, ◌+◌, ◌≤◌, [], length};
ghost use Rattle.numbers.specs.Refusals.{refusal_number};
ghost use Rattle.listing.specs.Lines.{end_line, refused_line};
ghost use Rattle.job_rules.specs.RunStates.{ended, PutsPiece};

use job_format::JobFault;
use job_rules::Run;

// Puts the last line where it fits.
pub fn end(buffer: &mut [u8], put: usize, calls: u64) -> Run
    requires { put + length (end_line calls) ≤ length buffer.old }
    ensures { PutsPiece put buffer.old (ended (end_line calls) []) result [] buffer.new }
{
    Run::end(listing::end_line(buffer, put, calls))
}

// Puts the only line of a job that the check refused, where it fits.
pub fn refused(buffer: &mut [u8], fault: JobFault) -> Run
    requires { length (refused_line (refusal_number fault.refusal) fault.offset) ≤ length buffer.old }
    ensures { PutsPiece 0 buffer.old (ended (refused_line (refusal_number fault.refusal) fault.offset) []) result [] buffer.new }
{
    Run::end(listing::refused_line(buffer, 0, u64::from(fault.refusal), fault.offset as u64))
}
