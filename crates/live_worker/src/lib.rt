//! Workers at a board and one watcher, which reports how many squares of the range are finished while they make more.
#![tactic(auto)]

mod gathering;
mod images;
mod making;
mod opening;
mod reports;
mod resolve;
mod role;
mod run;
mod watcher;

pub use images::images_live;
pub use resolve::resolve_live;
