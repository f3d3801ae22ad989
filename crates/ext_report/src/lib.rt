//! Why a run has no answer: the failure, its status, and the line that tells it on standard error.
#![tactic(auto)]

mod failure;
mod lines;
mod status;
mod writing;

pub use failure::Failure;
pub use lines::report;
pub use status::{
    MALFORMED, NO_CERTIFICATE, NO_CLASS, NO_MEMORY, NO_MODULE, NONZERO, OUTSIDE_GRAMMAR,
    PAST_LIMIT, READING, SAVE_FILE, SAVING, WRITING, WRITTEN, statuses_are_these,
};
