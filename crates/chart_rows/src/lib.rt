//! The rows that the parts of a chart file say: each square of a part is put behind those of its row, where it may stand there.
//!
//! An image is held as the file has it, without the coordinates at generators of its own degree. So a row is the same whatever
//! range is asked for, and a range's rows have these images with zeros behind them.
#![tactic(auto)]

mod chart;
mod extent;
mod fault;
mod laws;
mod place;

pub use chart::{Chart, chart_of};
pub use extent::rows_within;
pub use fault::{ChartFault, PlaceFault};
pub use laws::{
    refused_parts_are_no_chart, resolution_is_not_refused, resolution_is_placed,
    resolution_may_stand,
};
