//! The choice of new rows, and the reduction with them behind the others. Where the rows are sums of reduced candidates they are
//! reduced in coordinates on these, transposed, which is less to reduce.
#![tactic(auto)]

mod choice;
mod columns;
mod coordinates;
mod parts;
mod pivots;

pub use choice::choose;
pub use columns::columns_at;
