//! Views of a board's finished squares, which a reader in a thread of its own sees while workers make more. One writer
//! publishes them, and its one reader answers from a view that was published, and never waits.
#![tactic(auto)]

mod chart;
mod counted;
mod known;
mod laws;
mod newest;
mod note;
mod published;
mod reader;
mod reading;
mod series;
mod view;
mod writer;

pub use counted::Counted;
pub use laws::{right_chart_is_part, right_view_is_canonical};
pub use note::Note;
pub use published::Published;
pub use reader::LiveReader;
pub use writer::{LiveWriter, close, new, publish};
