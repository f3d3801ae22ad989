//! Linear algebra over the field with two elements: echelon forms, spans and kernels. Vectors are rows.
#![tactic(auto)]

mod blocks;
mod columns;
mod existence;
mod extend;
mod given;
mod held;
mod laws;
mod matrix;
mod rank;
mod reduced;
mod rows;
mod rowwise;
mod scratch;

pub use existence::{
    echelon_form_exists, kernel_basis_exists, reduction_exists, row_basis_exists, span_is_decidable,
};
pub use laws::{
    echelon_form_is_unique, kernel_basis_is_unique, parts_are_reduction, preimage_is_unique,
    row_basis_is_unique,
};
pub use matrix::Matrix;
pub use rank::spanning_rows_are_full;
pub use reduced::Reduced;
pub use rows::{Rows, pivot, pivots_of};
pub use scratch::Scratch;
