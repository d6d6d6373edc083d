// What programs read and write: what the lines of a test's input say (specs/Cases), and what a writer holds that tells it. What reaches a
// terminal or a file no contract can say.
// In reading order: reading, a program's input; cases, the lines of a test's input; printing, what is printed for them and for a job.
#![tactic(auto)]

mod cases;
mod printing;
mod reading;

pub use cases::{Case, Cases, number_at};
pub use printing::{Words, print_fitted};
pub use reading::read_full;
