// What a function for C reports of its answer: words at the start of lent ones, where they all fit.
// - reports (specs/Reports): words put there; answers, reads, jobs (specs/Words): the words of each answer
#![tactic(auto)]

mod answers;
mod jobs;
mod reads;
mod reports;

pub use answers::{report_answer, report_written, truth, written_numbers};
pub use jobs::{checked_numbers, report_checked, report_made};
pub use reads::read_and_report;
