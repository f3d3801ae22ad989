//! Cases as data: a text of groups of cases, each with what is done and what has to come of it, and the report on them. What a case
//! means is said by the program that reads it, as a `Judge`; `docs/WORKING.md` has the format.
#![tactic(auto)]

mod differences;
mod files;
mod group;
mod judge;
mod reading;
mod refusal;

pub use differences::Differences;
pub use files::{DIFFERS, REFUSED, SAME, file_names, file_text, print_report, report_files};
pub use group::{Case, Field, Group};
pub use judge::{Judge, report, tell_case, tell_group};
pub use reading::read;
pub use refusal::Fault;
