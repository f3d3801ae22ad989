//! Squares of a resolution, tables of them, and keepers of what is made.
#![tactic(auto)]

mod bases;
mod below;
mod by_place;
mod inputs;
mod keep;
mod kernel;
mod putting;
mod row;
mod square;
mod table;

pub use below::Below;
pub use bidegree::{MAX_S, MAX_T, Range, limits_are_these};
pub use inputs::Inputs;
pub use keep::{Keep, KeepFault, MemKeep, NoKeep};
pub use putting::put;
pub use square::Square;
pub use table::Table;
