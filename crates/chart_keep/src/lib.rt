//! Chart files: what a run has made of a module's resolution is kept, part of a column by part, and read again.
//!
//! A chart file is a journal, as a save file is, and the two begin alike. What tells them apart is the digest behind that: the
//! records of a chart file belong to the digest of a text that no module has as its canonical text (`texts_are_apart`). So a
//! save file is refused as a chart file of something else, and a chart file as a save file of something else.
#![tactic(auto)]

mod digest;
mod fault;
mod keeper;

pub use digest::{chart_digest, texts_are_apart};
pub use fault::{ChartFault, KeepFault};
pub use keeper::{keep_part, open_chart};
