//! The kernel of rows, held as a form from which each vector of its reduced basis is made when it is asked for; and the choice of
//! new rows where all rows are sums of such vectors. Also whether rows are in reduced echelon form, and whether they are the parts of
//! a matrix's reduction, which is seen without eliminating anything again.
#![tactic(auto)]

mod blocks;
mod choice;
mod echelon;
mod form;
mod kernel;
mod laws;
mod parts;

pub use choice::{choose, choose_by_coordinates, kernel_of};
pub use echelon::is_row_basis;
pub use kernel::Kernel;
pub use laws::{parts_are_tested, row_basis_is_tested};
pub use parts::are_parts;
