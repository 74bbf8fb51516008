#![tactic(auto)]

// The bench: one program assembled and run once, and what happened as the bytes of a report.
mod input;
mod readings;
mod reports;
mod samples;
mod shown;
mod texts;

pub use reports::report;
pub use samples::NET;
pub use shown::shown_bytes;
pub use texts::{Ending, Refusal, outcome_text, refusal_text};
