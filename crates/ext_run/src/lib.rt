//! The top call: from the words of a command line to the text that answers them.
#![tactic(auto)]

mod answer;
mod from_images;
mod laws;
mod migrating;
mod plan;
mod products_over_images;
mod row_one;
mod sheets;
mod sought;
mod sought_over_images;
mod task;
mod texts;
mod verifying;

pub use answer::{Ended, run, run_one};
pub use bidegree::Range;
pub use ext_report::{Failure, report};
pub use ext_words::{Build, Command, Common, WordsFault, has_live, parse};
pub use laws::{
    answer_exists, answer_is_unique, certificate_is_decided, next_run_may_use_what_is_left,
    next_run_prints_the_same, short_disk_is_ours, verify_accepts_what_is_made,
};
